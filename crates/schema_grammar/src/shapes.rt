//! Schemas among tokens.
ghost use Rattle.std.specs.Prelude.{ℕ, ◌≤◌, length, IfOk, IfErr};
ghost use Rattle.std.specs.List.{All};
ghost use Rattle.afl_lexer.specs.Tokens.{IsTokenOf};
ghost use Rattle.schema_grammar.specs.declared.shape_text.SchemaText.{SchemaText};
ghost use Rattle.schema_grammar.specs.Outcome.{AnswersSchema, AnswersStop, IsSchemaAt, IsStop, StopsAt};

use crate::{SchemaText, ShapeState, ShapeStep, read_shape};
use afl_lexer::{Memory, Token};
use std::alloc::Global;

/// Why tokens have no schema's syntax tree.
#[derive(Clone, Copy)]
pub enum ShapeFault {
    /// The place of the first token that can't stand where it does, or the number of tokens where a schema isn't whole.
    Unexpected { token: usize },
    /// No memory was left.
    Memory,
}

impl From<Memory> for ShapeFault {
    ghost use Rattle.std.specs.Prelude.{◌≡◌};
    ghost use Rattle.schema_grammar.specs.declared.shapes.ShapeFault.{ShapeFault};

    ghost from_gives = { λ _ e. e ≡ ShapeFault.Memory };

    fn from(_: Memory) -> ShapeFault {
        ShapeFault::Memory
    }
}

/// The syntax tree of the schema that begins at a token, and the place of the token behind it.
pub fn shape(
    alloc: Global,
    text: &[u8],
    tokens: &[Token],
    from: usize,
) -> Result<(SchemaText, usize), ShapeFault>
    requires tokens { All (IsTokenOf text.now) tokens.now }
    requires within { from ≤ length tokens.now }

    ensures schema { IfOk result (λ answer. IsSchemaAt text.now tokens.now from answer.0 answer.1) }
    ensures stop { IfErr result (λ fault. IsStop text.now tokens.now from fault) }

    // Each schema that begins there, and each stop that there is, is the answer.
    ensures only_schema { (schema : SchemaText) (next : ℕ) → IsSchemaAt text.now tokens.now from schema next → AnswersSchema result schema next }
    ensures only_stop { (at : ℕ) → StopsAt text.now tokens.now from at → AnswersStop result at }
{
    let mut state = ShapeState::Start;
    let rest = &tokens[from..];
    for (offset, token) in rest.iter().enumerate() {
        match read_shape(alloc, text, state, *token)? {
            ShapeStep::On(next) => state = next,
            ShapeStep::Whole(schema, _) => return Ok((schema, from + offset + 1)),
            ShapeStep::Unexpected => {
                return Err(ShapeFault::Unexpected {
                    token: from + offset,
                });
            }
        }
    }
    Err(ShapeFault::Unexpected {
        token: tokens.len(),
    })
}

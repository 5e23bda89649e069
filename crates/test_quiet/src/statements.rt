//! Statements, as they are typed over the names of a store.
ghost use Rattle.std.specs.Prelude.{IfOk, IsTrue};
ghost use Rattle.check_exprs.specs.Laws.{leaves_fit};
ghost use Rattle.plan_changes.specs.Stored.{AreStored};
ghost use Rattle.test_quiet.specs.Statements.{IsStatement};

use crate::answers::Answer;
use afl_parser::{ParseFault, parse};
use afl_trees::{Tree, let_go_tree};
use afl_types::{TypeFault, Typed, check};
use logical_plan::Names;
use result_print::Refusal;
use std::alloc::Global;

/// How many bytes a statement may have.
const LIMIT: usize = 1_048_576;

fn checked(alloc: Global, text: &[u8], tree: &Tree, names: &Names) -> Result<Typed, Answer>
    requires stored { AreStored names.now }
    requires fits { IsTrue (leaves_fit tree.now) }
    ensures { IfOk result (IsStatement names.now) }
{
    match check(alloc, tree, text, names) {
        Ok(typed) => Ok(typed),
        Err(TypeFault::Rule { span, kind }) => Err(Answer::Refused(Refusal::Typing { span, kind })),
        Err(TypeFault::Memory) => Err(Answer::Memory),
    }
}

/// The statement that a text is over some names.
pub(crate) fn statement(alloc: Global, text: &[u8], names: &Names) -> Result<Typed, Answer>
    requires { AreStored names.now }
    ensures { IfOk result (IsStatement names.now) }
{
    if text.len() > LIMIT {
        return Err(Answer::Refused(Refusal::TooLong {
            bytes: text.len() as u64,
        }));
    }
    match parse(alloc, text) {
        Ok(tree) => {
            let typed = checked(alloc, text, &tree, names);
            let_go_tree(tree);
            typed
        }
        Err(ParseFault::At { at, kind }) => Err(Answer::Refused(Refusal::Parse { at, kind })),
        Err(ParseFault::Memory) => Err(Answer::Memory),
    }
}

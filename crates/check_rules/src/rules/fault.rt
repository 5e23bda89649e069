//! Why a statement is not typed.
ghost use Rattle.std.specs.Prelude.{◌≡◌};
ghost use Rattle.check_rules.specs.declared.rules.fault.TypeFault.{TypeFault};

use afl_trees::{SchemaFault, TypeKind};
use cell_values::{Memory, Span};

/// Why a statement is not typed.
#[derive(Clone, Copy)]
pub enum TypeFault {
    /// The first rule that the statement breaks, and the place of what breaks it.
    Rule { span: Span, kind: TypeKind },
    /// No memory was left.
    Memory,
}

impl From<Memory> for TypeFault {
    ghost use Rattle.std.specs.Prelude.{◌≡◌};
    ghost use Rattle.check_rules.specs.declared.rules.fault.TypeFault.{TypeFault};

    ghost from_gives = { λ _ e. e ≡ TypeFault.Memory };

    fn from(_: Memory) -> TypeFault {
        TypeFault::Memory
    }
}

impl From<SchemaFault> for TypeFault {
    ghost use Rattle.std.specs.Prelude.{◌≡◌};
    ghost use Rattle.check_rules.specs.Checked.{of_schema};

    ghost from_gives = { λ fault e. e ≡ of_schema fault };

    fn from(fault: SchemaFault) -> TypeFault {
        match fault {
            SchemaFault::Rule { span, kind } => TypeFault::Rule { span, kind },
            SchemaFault::Memory => TypeFault::Memory,
        }
    }
}

/// A fault at a place.
pub fn broken(span: Span, kind: TypeKind) -> TypeFault
    ensures { result ≡ TypeFault.Rule span kind }
{
    TypeFault::Rule { span, kind }
}

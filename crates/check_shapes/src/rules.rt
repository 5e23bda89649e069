//! Rules as a list in the order in which they are tested.
ghost use Rattle.check_rules.specs.Checked.{Answers};
ghost use Rattle.check_shapes.specs.Tables.{all_hold};

use check_rules::{TypeFault, broken};
use schema_grammar::rules::Rule;

/// That all rules hold, or the fault of the first that is broken.
pub(crate) fn all_hold(rules: &[Rule]) -> Result<(), TypeFault>
    ensures { Answers result (all_hold rules.now) }
{
    for rule in rules {
        if !rule.holds {
            return Err(broken(rule.span, rule.kind));
        }
    }
    Ok(())
}

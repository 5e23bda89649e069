//! Statements about a stored array as it stands, and the list of all of them.
ghost use Rattle.std.specs.Prelude.{◌≡◌};
ghost use Rattle.afl_trees.specs.Grammar.{span_of};
ghost use Rattle.afl_trees.specs.Term.{to_terms};
ghost use Rattle.check_rules.specs.Sorts.{number_in};
ghost use Rattle.plan_changes.specs.Changes.{entry_named};
ghost use Rattle.check_rules.specs.Checked.{Answers};
ghost use Rattle.afl_types.specs.Changes.{below_of, stored_name, array_call, cut_of, cut_by, cut_from, cut_call, is_arrays, listed, list_call};

use afl_trees::{Node, Tree};
use cell_values::{List, Name, Span};
use check_rules::{TypeFault, broken, number_in, wrong_type};
use logical_plan::NameEntry;
use plan_changes::{Change, entry_named, last_of};
use schema_grammar::TypeKind;

/// The name that a tree is, where an array has it.
fn stored_name(arrays: &List<NameEntry>, array: &Tree) -> Result<Name, TypeFault>
    ensures { Answers result (stored_name arrays.now array.now) }
{
    match &array.node {
        Node::Ref(name) => match entry_named(arrays, name) {
            Some(_) => Ok(name.copy()?),
            None => Err(broken(array.span, TypeKind::UnknownArray)),
        },
        _ => Err(wrong_type(array)),
    }
}

/// The name of a stored array, which is the only argument of `remove`, `versions` and `show`, or the first rule that is broken.
///
/// `span` is that of the whole call.
#[tactic(auto, using(crate::proofs::Arguments::few_for_array, crate::proofs::Arguments::many_for_array))]
pub fn array_call(
    arrays: &List<NameEntry>,
    span: Span,
    arguments: &[Tree],
) -> Result<Name, TypeFault>
    ensures { Answers result (array_call arrays.now span (to_terms arguments.now)) }
{
    match arguments {
        [array] => stored_name(arrays, array),
        _ => Err(broken(span, TypeKind::WrongCount)),
    }
}

/// The version that a number is, from 1 to the newest one.
fn below_of(newest: u32, number: i64) -> Option<u32>
    ensures { result ≡ below_of newest number }
{
    if 1 <= number && number <= i64::from(newest) {
        Some(number.unsigned_abs() as u32)
    } else {
        None
    }
}

/// `remove_versions` of a name and a number, each with its place.
fn cut_of(
    arrays: &List<NameEntry>,
    at: Span,
    number_at: Span,
    name: &Name,
    number: i64,
) -> Result<Change, TypeFault>
    ensures { Answers result (cut_of at number_at name.now number (entry_named arrays.now name.now)) }
{
    match entry_named(arrays, name) {
        Some(entry) => match below_of(last_of(&entry.versions), number) {
            Some(below) => Ok(Change::RemoveVersions {
                name: name.copy()?,
                below,
            }),
            None => Err(broken(number_at, TypeKind::UnknownVersion)),
        },
        None => Err(broken(at, TypeKind::UnknownArray)),
    }
}

/// `remove_versions` of a name and what number an argument is, each with its place.
fn cut_by(
    arrays: &List<NameEntry>,
    at: Span,
    name: &Name,
    number_at: Span,
    number: Option<i64>,
) -> Result<Change, TypeFault>
    ensures { Answers result (cut_by arrays.now at name.now number_at number) }
{
    match number {
        Some(below) => cut_of(arrays, at, number_at, name, below),
        None => Err(broken(number_at, TypeKind::WrongType)),
    }
}

fn span_of(tree: &Tree) -> Span
    ensures { result ≡ span_of tree.now }
{
    tree.span
}

/// `remove_versions` of a name, which stands at a place, and a tree.
fn cut_named(
    arrays: &List<NameEntry>,
    at: Span,
    name: &Name,
    number: &Tree,
) -> Result<Change, TypeFault>
    ensures { Answers result (cut_by arrays.now at name.now (span_of number.now) (number_in number.now)) }
{
    cut_by(arrays, at, name, span_of(number), number_in(number))
}

/// `remove_versions` of two trees.
fn cut_from(arrays: &List<NameEntry>, array: &Tree, number: &Tree) -> Result<Change, TypeFault>
    ensures { Answers result (cut_from arrays.now array.now number.now) }
{
    match &array.node {
        Node::Ref(name) => cut_named(arrays, array.span, name, number),
        _ => Err(wrong_type(array)),
    }
}

/// `remove_versions`: the change, or the first rule that it breaks.
///
/// `span` is that of the whole call.
#[tactic(auto, using(crate::proofs::Arguments::few_for_cut, crate::proofs::Arguments::many_for_cut))]
pub fn cut_call(
    arrays: &List<NameEntry>,
    span: Span,
    arguments: &[Tree],
) -> Result<Change, TypeFault>
    ensures { Answers result (cut_call arrays.now span (to_terms arguments.now)) }
{
    match arguments {
        [array, number] => cut_from(arrays, array, number),
        _ => Err(broken(span, TypeKind::WrongCount)),
    }
}

fn is_arrays(spelled: &[u8]) -> bool
    ensures { result ≡ is_arrays spelled.now }
{
    spelled == b"arrays".as_slice()
}

/// That a tree is the text `arrays`.
fn listed(tree: &Tree) -> Result<(), TypeFault>
    ensures { Answers result (listed tree.now) }
{
    match &tree.node {
        Node::Text(spelled) => {
            if is_arrays(spelled.as_slice()) {
                Ok(())
            } else {
                Err(broken(tree.span, TypeKind::UnknownName))
            }
        }
        _ => Err(wrong_type(tree)),
    }
}

/// That `list` is of the stored arrays, or the first rule that it breaks.
///
/// `span` is that of the whole call.
#[tactic(auto, using(crate::proofs::Arguments::few_for_list, crate::proofs::Arguments::many_for_list))]
pub fn list_call(span: Span, arguments: &[Tree]) -> Result<(), TypeFault>
    ensures { Answers result (list_call span (to_terms arguments.now)) }
{
    match arguments {
        [text] => listed(text),
        _ => Err(broken(span, TypeKind::WrongCount)),
    }
}

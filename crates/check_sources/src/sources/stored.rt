//! Stored arrays and their versions.
ghost use Rattle.std.specs.Prelude.{◌≡◌, Some, None, Ok, MatchOption};
ghost use Rattle.std.specs.List.{find};
ghost use Rattle.afl_trees.specs.Term.{to_terms};
ghost use Rattle.check_rules.specs.Checked.{Answers};
ghost use Rattle.check_sources.specs.Stored.{entry_named, newest, is_version, leaf_of, newest_of, version_of, referred, scan_call};

use afl_trees::{Node, Tree};
use cell_values::Span;
use check_rules::{TypeFault, broken, same_name, wrong_type};
use logical_plan::{Leaf, NameEntry, Plan};
use schema_grammar::TypeKind;

/// The stored array of a name.
fn entry_named<'a>(arrays: &'a [NameEntry], name: &[u8]) -> Option<&'a NameEntry>
    ensures { MatchOption result (entry_named arrays.now name.now ≡ None) (λ entry. entry_named arrays.now name.now ≡ Some entry.now) }
{
    for entry in arrays {
        if same_name(&entry.name, name) {
            return Some(entry);
        }
    }
    None
}

/// The newest version, 0 where there is none.
fn newest(versions: &[u32]) -> u32
    ensures { result ≡ newest versions.now }
{
    match versions.last() {
        Some(version) => *version,
        None => 0,
    }
}

fn is_version(number: i64, version: u32) -> bool
    ensures { result ≡ is_version number version }
{
    i64::from(version) == number
}

/// The version of this number.
fn version_in(versions: &[u32], number: i64) -> Option<u32>
    ensures { result ≡ find (is_version number) versions.now }
{
    versions
        .iter()
        .copied()
        .find(|version| is_version(number, *version))
}

fn leaf_of(entry: &NameEntry, version: u32) -> Result<Plan, TypeFault>
    ensures { Answers result (Ok (leaf_of entry.now version)) }
{
    Ok(Plan::scan(Leaf {
        name: entry.name.copy()?,
        version,
        schema: entry.schema.copy()?,
    }))
}

/// An array by its name alone, which is its newest version.
fn newest_of(arrays: &[NameEntry], span: Span, name: &[u8]) -> Result<Plan, TypeFault>
    ensures { Answers result (newest_of span (entry_named arrays.now name.now)) }
{
    match entry_named(arrays, name) {
        Some(entry) => leaf_of(entry, newest(entry.versions.as_slice())),
        None => Err(broken(span, TypeKind::UnknownArray)),
    }
}

/// A version of an array.
fn version_of(arrays: &[NameEntry], span: Span, name: &[u8], number: i64) -> Result<Plan, TypeFault>
    ensures { Answers result (version_of span (entry_named arrays.now name.now) number) }
{
    match entry_named(arrays, name) {
        Some(entry) => match version_in(entry.versions.as_slice(), number) {
            Some(version) => leaf_of(entry, version),
            None => Err(broken(span, TypeKind::UnknownVersion)),
        },
        None => Err(broken(span, TypeKind::UnknownArray)),
    }
}

/// An array, or a version of one.
pub fn referred(arrays: &[NameEntry], tree: &Tree) -> Result<Plan, TypeFault>
    ensures { Answers result (referred arrays.now tree.now) }
{
    match &tree.node {
        Node::Ref(name) => newest_of(arrays, tree.span, name.as_slice()),
        Node::Version(name, number) => version_of(arrays, tree.span, name.as_slice(), *number),
        _ => Err(wrong_type(tree)),
    }
}

/// `scan`.
#[tactic(auto, using(crate::proofs::Arguments::few_for_scan, crate::proofs::Arguments::many_for_scan))]
pub fn scan_call(arrays: &[NameEntry], span: Span, arguments: &[Tree]) -> Result<Plan, TypeFault>
    ensures { Answers result (scan_call arrays.now span (to_terms arguments.now)) }
{
    match arguments {
        [array] => referred(arrays, array),
        _ => Err(broken(span, TypeKind::WrongCount)),
    }
}

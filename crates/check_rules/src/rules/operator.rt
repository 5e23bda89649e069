//! The operators and functions that a call may name.
ghost use Rattle.std.specs.Prelude.{◌≡◌};
ghost use Rattle.std.specs.Str.{bytes_eq};
ghost use Rattle.check_rules.specs.Operators.{query_named, change_named, operator_named, form_named, name_span};

use afl_lexer::if_spelled;
use cell_values::{Name, Span};

/// An operator: what a call gives an array, changes arrays, or lists something.
#[derive(Clone, Copy)]
pub enum Operator {
    Build,
    Scan,
    Filter,
    Apply,
    Project,
    Between,
    Subarray,
    Slice,
    Join,
    CrossJoin,
    Redimension,
    Regrid,
    Window,
    Aggregate,
    Sort,
    Rank,
    Cumulate,
    Transpose,
    Reverse,
    Unpack,
    Xgrid,
    Merge,
    Concat,
    Store,
    Insert,
    Remove,
    RemoveVersions,
    Versions,
    Show,
    ListNames,
}

/// A function of an expression.
#[derive(Clone, Copy)]
pub enum Form {
    /// `iif`, of three operands.
    Iif,
    /// A function of one operand.
    One(OneForm),
}

/// A function of one operand.
#[derive(Clone, Copy)]
pub enum OneForm {
    IsNull,
    StrLen,
    ToText,
    Missing,
    Reason,
}

/// The operator of this name that gives an array.
#[tactic(auto, unfolding(crate::specs::Operators::query_named))]
fn query_named(name: &[u8]) -> Option<Operator>
    ensures { result ≡ query_named name.now }
{
    let found = None;
    let found = if_spelled(name, b"concat", Operator::Concat, found);
    let found = if_spelled(name, b"merge", Operator::Merge, found);
    let found = if_spelled(name, b"xgrid", Operator::Xgrid, found);
    let found = if_spelled(name, b"unpack", Operator::Unpack, found);
    let found = if_spelled(name, b"reverse", Operator::Reverse, found);
    let found = if_spelled(name, b"transpose", Operator::Transpose, found);
    let found = if_spelled(name, b"cumulate", Operator::Cumulate, found);
    let found = if_spelled(name, b"rank", Operator::Rank, found);
    let found = if_spelled(name, b"sort", Operator::Sort, found);
    let found = if_spelled(name, b"aggregate", Operator::Aggregate, found);
    let found = if_spelled(name, b"window", Operator::Window, found);
    let found = if_spelled(name, b"regrid", Operator::Regrid, found);
    let found = if_spelled(name, b"redimension", Operator::Redimension, found);
    let found = if_spelled(name, b"cross_join", Operator::CrossJoin, found);
    let found = if_spelled(name, b"join", Operator::Join, found);
    let found = if_spelled(name, b"slice", Operator::Slice, found);
    let found = if_spelled(name, b"subarray", Operator::Subarray, found);
    let found = if_spelled(name, b"between", Operator::Between, found);
    let found = if_spelled(name, b"project", Operator::Project, found);
    let found = if_spelled(name, b"apply", Operator::Apply, found);
    let found = if_spelled(name, b"filter", Operator::Filter, found);
    let found = if_spelled(name, b"scan", Operator::Scan, found);
    let found = if_spelled(name, b"build", Operator::Build, found);
    found
}

/// The operator of this name that changes arrays or lists something.
#[tactic(auto, unfolding(crate::specs::Operators::change_named))]
fn change_named(name: &[u8]) -> Option<Operator>
    ensures { result ≡ change_named name.now }
{
    let found = None;
    let found = if_spelled(name, b"list", Operator::ListNames, found);
    let found = if_spelled(name, b"show", Operator::Show, found);
    let found = if_spelled(name, b"versions", Operator::Versions, found);
    let found = if_spelled(name, b"remove_versions", Operator::RemoveVersions, found);
    let found = if_spelled(name, b"remove", Operator::Remove, found);
    let found = if_spelled(name, b"insert", Operator::Insert, found);
    let found = if_spelled(name, b"store", Operator::Store, found);
    found
}

/// The operator of this name.
pub fn operator_named(name: &[u8]) -> Option<Operator>
    ensures { result ≡ operator_named name.now }
{
    match query_named(name) {
        Some(operator) => Some(operator),
        None => change_named(name),
    }
}

/// The function of this name.
#[tactic(auto, unfolding(crate::specs::Operators::form_named))]
pub fn form_named(name: &[u8]) -> Option<Form>
    ensures { result ≡ form_named name.now }
{
    let found = None;
    let found = if_spelled(name, b"missing_reason", Form::One(OneForm::Reason), found);
    let found = if_spelled(name, b"missing", Form::One(OneForm::Missing), found);
    let found = if_spelled(name, b"string", Form::One(OneForm::ToText), found);
    let found = if_spelled(name, b"strlen", Form::One(OneForm::StrLen), found);
    let found = if_spelled(name, b"is_null", Form::One(OneForm::IsNull), found);
    let found = if_spelled(name, b"iif", Form::Iif, found);
    found
}

/// The place of a call's name.
pub fn name_span(call: Span, name: &[u8]) -> Span
    ensures { result ≡ name_span call name.now }
{
    let len = name.len().min(u32::MAX as usize) as u32;
    let end = call.start.saturating_add(len);
    Span {
        start: call.start,
        end: call.end.min(end),
    }
}

/// Whether the name is spelled so.
pub fn same_name(name: &Name, bytes: &[u8]) -> bool
    ensures { result ≡ bytes_eq name.now bytes.now }
{
    name.as_slice() == bytes
}

//! Statements that are typed, as lines.
use afl_types::Typed;
use cell_values::{Memory, Name, Schema};
use logical_plan::{Plan, reads};
use plan_changes::{Change, changed_name};
use plan_schemas::schema_of;
use schema_grammar::schema_text;
use std::alloc::AllocError;
use std::str::from_utf8;
use test_kit::{Transcript, push_made, push_numbered, push_word, push_words};

pub(crate) fn name_text(name: &Name) -> &str {
    from_utf8(name.as_slice()).unwrap_or("no text")
}

/// Adds a text that was written, and lets it go.
pub(crate) fn push_written(out: &mut Transcript, written: Result<String, AllocError>) {
    match written {
        Ok(text) => {
            push_word(out, text.as_str());
            drop(text);
        }
        Err(AllocError) => out.note_short(),
    }
}

/// Adds the versions that a plan reads, each between these words.
fn push_reads(out: &mut Transcript, before: &str, plan: &Plan, behind: &str) {
    match reads(out.alloc(), plan) {
        Ok(leaves) => {
            for leaf in leaves.as_slice() {
                push_words(out, &[before, name_text(&leaf.name)]);
                push_numbered(out, "@", u64::from(leaf.version), behind);
            }
            drop(leaves);
        }
        Err(Memory) => out.note_short(),
    }
}

/// Adds the versions that a plan reads, and its schema.
fn push_plan(out: &mut Transcript, plan: &Plan) {
    push_reads(out, "", plan, " ");
    match schema_of(out.alloc(), plan) {
        Ok(schema) => {
            let text = schema_text(out.alloc(), &schema);
            drop(schema);
            push_made(out, text);
        }
        Err(Memory) => out.note_short(),
    }
}

/// What a change does to its array.
fn verb_of(change: &Change) -> &'static str {
    match change {
        Change::Create { .. } => "create ",
        Change::Store { .. } => "store ",
        Change::Insert { .. } => "insert ",
        Change::Remove { .. } | Change::RemoveVersions { .. } => "remove ",
    }
}

/// Adds the text of a schema behind a space.
fn push_schema(out: &mut Transcript, schema: &Schema) {
    push_word(out, " ");
    push_made(out, schema_text(out.alloc(), schema));
}

/// Adds a change: its array, the schema that is made, and the versions that its plan reads.
fn push_change(out: &mut Transcript, change: &Change) {
    push_word(out, verb_of(change));
    push_word(out, name_text(changed_name(change)));
    match change {
        Change::Create { schema, .. } => push_schema(out, schema),
        Change::Store { schema, plan, .. } | Change::Insert { schema, plan, .. } => {
            push_schema(out, schema);
            push_word(out, " reads");
            push_reads(out, " ", plan, "");
        }
        Change::Remove { .. } => {}
        Change::RemoveVersions { below, .. } => {
            push_numbered(out, " below ", u64::from(*below), "");
        }
    }
}

/// Adds what a statement is.
pub(crate) fn push_typed(out: &mut Transcript, typed: &Typed) {
    match typed {
        Typed::Query(plan) => push_plan(out, plan),
        Typed::Change(change) => push_change(out, change),
        Typed::Versions(name) => push_words(out, &["versions ", name_text(name)]),
        Typed::Show(name) => push_words(out, &["show ", name_text(name)]),
        Typed::ListArrays => push_word(out, "list"),
    }
}

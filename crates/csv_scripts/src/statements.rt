//! The statements of a script. Each ends with `;` and a line feed.
ghost use Rattle.std.specs.Prelude.{◌≡◌, ◌++◌, ℤ, pos, codes, IfOk, OnOk};
ghost use Rattle.std.specs.Fmt.{decimal};
ghost use Rattle.schema_grammar.specs.SchemaBytes.{schema_bytes};
ghost use Rattle.csv_scripts.specs.Scripts.{by_number, create_bytes, remove_bytes, built_bytes, insert_bytes, stage_schema};

use crate::plan::LoadPlan;
use cell_values::{Bytes, Dimension, List, Memory, Name, Schema};
use itoa::Buffer;
use result_print::write_text;
use schema_grammar::schema_text;
use std::alloc::Global;

/// The last place of a dimension without an end.
const UNBOUNDED: i64 = 4611686018427387903;

/// How many records a chunk of the array of records has.
const STAGE_CHUNK: u64 = 4096;

/// More than a literal has elements.
const LITERAL_CHUNK: u64 = 65536;

/// The schema of records from a place on, in chunks.
fn records_from(alloc: Global, plan: &LoadPlan, lo: i64, chunk: u64) -> Result<Schema, Memory>
    ensures { IfOk result (λ schema. schema ≡ by_number plan.now lo chunk) }
{
    let mut dimensions = List::new(alloc);
    dimensions.push(Dimension {
        name: plan.record.copy()?,
        lo,
        hi: UNBOUNDED,
        chunk,
        overlap: 0,
    })?;
    Ok(Schema {
        attributes: plan.columns.copy()?,
        dimensions,
    })
}

fn push_schema(text: &mut Bytes, schema: &Schema) -> Result<(), Memory>
    ensures { OnOk result (text.new ≡ text.old ++ schema_bytes schema.now) }
{
    let schema = schema_text(text.allocator(), schema)?;
    text.extend(schema.as_slice())
}

/// The records of a literal, the first of which has a number.
fn built(alloc: Global, plan: &LoadPlan, first: i64, literal: &[u8]) -> Result<Bytes, Memory>
    ensures { IfOk result (λ text. text ≡ built_bytes plan.now first literal.now) }
{
    let schema = records_from(alloc, plan, first, LITERAL_CHUNK)?;
    let mut text = Bytes::from_slice(alloc, b"build(")?;
    push_schema(&mut text, &schema)?;
    text.push(b',')?;
    write_text(&mut text, literal)?;
    text.extend(b",true)")?;
    Ok(text)
}

/// The statement that puts the cells of a source into an array.
fn insert(alloc: Global, source: &[u8], schema: &Schema, name: &Name) -> Result<Bytes, Memory>
    ensures { IfOk result (λ text. text ≡ insert_bytes source.now schema.now name.now) }
{
    let mut text = Bytes::from_slice(alloc, b"insert(redimension(")?;
    text.extend(source)?;
    text.push(b',')?;
    push_schema(&mut text, schema)?;
    text.extend(b"),")?;
    text.extend(name.as_slice())?;
    text.extend(b");\n")?;
    Ok(text)
}

fn create(alloc: Global, name: &Name, schema: &Schema) -> Result<Bytes, Memory>
    ensures { IfOk result (λ text. text ≡ create_bytes name.now schema.now) }
{
    let mut text = Bytes::from_slice(alloc, b"create array ")?;
    text.extend(name.as_slice())?;
    text.push(b' ')?;
    push_schema(&mut text, schema)?;
    text.extend(b";\n")?;
    Ok(text)
}

/// Makes the array, without cells.
pub(crate) fn create_target(alloc: Global, plan: &LoadPlan) -> Result<Bytes, Memory>
    ensures { IfOk result (λ text. text ≡ create_bytes plan.now.name plan.now.schema) }
{
    create(alloc, &plan.name, &plan.schema)
}

/// Makes the array of records, without cells.
pub(crate) fn create_stage(alloc: Global, plan: &LoadPlan) -> Result<Bytes, Memory>
    ensures { IfOk result (λ text. text ≡ create_bytes plan.now.stage (stage_schema plan.now)) }
{
    let schema = records_from(alloc, plan, 0, STAGE_CHUNK)?;
    create(alloc, &plan.stage, &schema)
}

pub(crate) fn remove_stage(alloc: Global, plan: &LoadPlan) -> Result<Bytes, Memory>
    ensures { IfOk result (λ text. text ≡ remove_bytes plan.now.stage) }
{
    let mut text = Bytes::from_slice(alloc, b"remove(")?;
    text.extend(plan.stage.as_slice())?;
    text.extend(b");\n")?;
    Ok(text)
}

/// Puts the records of a literal into the array.
pub(crate) fn insert_literal(
    alloc: Global,
    plan: &LoadPlan,
    first: i64,
    literal: &[u8],
) -> Result<Bytes, Memory>
    ensures { IfOk result (λ text. text ≡ insert_bytes (built_bytes plan.now first literal.now) plan.now.schema plan.now.name) }
{
    let source = built(alloc, plan, first, literal)?;
    insert(alloc, source.as_slice(), &plan.schema, &plan.name)
}

/// Puts the records of a literal into the array of records.
pub(crate) fn stage_literal(
    alloc: Global,
    plan: &LoadPlan,
    first: i64,
    literal: &[u8],
) -> Result<Bytes, Memory>
    ensures { IfOk result (λ text. text
        ≡ insert_bytes (built_bytes plan.now first literal.now) (stage_schema plan.now) plan.now.stage) }
{
    let source = built(alloc, plan, first, literal)?;
    let schema = records_from(alloc, plan, 0, STAGE_CHUNK)?;
    insert(alloc, source.as_slice(), &schema, &plan.stage)
}

/// Puts all records of a version of the array of records into the array.
pub(crate) fn insert_stage(alloc: Global, plan: &LoadPlan, version: u64) -> Result<Bytes, Memory>
    ensures { IfOk result (λ text. text ≡ insert_bytes (plan.now.stage ++ codes "@" ++ decimal version) plan.now.schema plan.now.name) }
{
    let mut source = Bytes::from_slice(alloc, plan.stage.as_slice())?;
    let mut buffer = Buffer::new();
    source.push(b'@')?;
    source.extend(buffer.format(version).as_bytes())?;
    insert(alloc, source.as_slice(), &plan.schema, &plan.name)
}

//! From records to statements.
//!
//! Records go into an array of records first, a literal at a time, and from there into their array by one statement. So all of a block
//! come in one version, or none does, and a chunk is written once however the records are ordered. So few records that one literal
//! holds them go into their array at once.
ghost use Rattle.std.specs.Prelude.{◌≡◌, ◌++◌, ℕ, pos, List, [], ◌∷◌, IsTrue, IfOk, OnOk};
ghost use Rattle.cell_values.specs.declared.datum.Datum.{Datum};
ghost use Rattle.csv_scripts.specs.declared.plan.LoadPlan.{LoadPlan};
ghost use Rattle.csv_scripts.specs.Batches.{IsOpenLiteral};
ghost use Rattle.csv_scripts.specs.Literal.{are_spellable};
ghost use Rattle.csv_scripts.specs.Scripts.{closing_bytes, direct_bytes, lead_bytes, opening_bytes, part, stage_bytes};
ghost use Rattle.csv_scripts.specs.Loads.{IsLoad, IsSpelled, IsLoading};

use crate::batch::Batch;
use crate::plan::LoadPlan;
use crate::statements::{create_stage, insert_literal, insert_stage, remove_stage, stage_literal};
use cell_values::{Bytes, Datum, Memory};
use std::alloc::Global;
use std::mem::replace;

/// Why a record can't be added.
#[derive(Clone, Copy)]
pub(crate) enum BatchFault {
    /// Its values are too long for a literal, or there are too many records.
    TooLong,
    Memory,
}

impl From<Memory> for BatchFault {
    fn from(_: Memory) -> BatchFault {
        BatchFault::Memory
    }
}

/// The statements that make the array of records anew. One of this name that an earlier script left is removed: the first of these
/// statements is refused then. Else the last two make what the second removes.
fn opening(alloc: Global, plan: &LoadPlan) -> Result<Bytes, Memory>
    ensures { IfOk result (λ text. text ≡ opening_bytes plan.now) }
{
    let mut text = create_stage(alloc, plan)?;
    text.append(remove_stage(alloc, plan)?)?;
    text.append(create_stage(alloc, plan)?)?;
    Ok(text)
}

/// What stands before the records of a literal.
fn lead(alloc: Global, plan: &LoadPlan, versions: u64) -> Result<Bytes, Memory>
    ensures { IfOk result (λ text. text ≡ lead_bytes plan.now versions) }
{
    if versions > 0 {
        Ok(Bytes::new(alloc))
    } else {
        opening(alloc, plan)
    }
}

/// The number of the first record of a literal, as a place.
fn place_of(batch: &Batch) -> Result<i64, BatchFault>
    ensures { IfOk result (λ place. place ≡ pos batch.now.first) }
{
    match i64::try_from(batch.first) {
        Ok(place) => Ok(place),
        Err(_) => Err(BatchFault::TooLong),
    }
}

/// The statements that put the records of a literal into the array of records.
fn staged(alloc: Global, plan: &LoadPlan, batch: Batch, versions: u64) -> Result<Bytes, BatchFault>
    ensures text { (rows : List (List Datum)) → IsOpenLiteral batch.text batch.count rows
        → IfOk result (λ text. text ≡ lead_bytes plan.now versions ++ stage_bytes plan.now (part batch.first rows)) }
    ensures spelled { (rows : List (List Datum)) → IsOpenLiteral batch.text batch.count rows → OnOk result (IsSpelled (part batch.first rows)) }
{
    let first = place_of(&batch)?;
    let literal = batch.finish()?;
    let mut text = lead(alloc, plan, versions)?;
    text.append(stage_literal(alloc, plan, first, literal.as_slice())?)?;
    Ok(text)
}

/// The statement that puts the records of a literal into their array.
fn direct(alloc: Global, plan: &LoadPlan, batch: Batch) -> Result<Bytes, BatchFault>
    ensures text { (rows : List (List Datum)) → IsOpenLiteral batch.text batch.count rows
        → IfOk result (λ text. text ≡ direct_bytes plan.now (part batch.first rows)) }
    ensures spelled { (rows : List (List Datum)) → IsOpenLiteral batch.text batch.count rows → OnOk result (IsSpelled (part batch.first rows)) }
{
    let first = place_of(&batch)?;
    let literal = batch.finish()?;
    Ok(insert_literal(alloc, plan, first, literal.as_slice())?)
}

/// The statements that put the array of records into the array, and remove it.
fn closing(alloc: Global, plan: &LoadPlan, versions: u64) -> Result<Bytes, Memory>
    ensures { IfOk result (λ text. text ≡ closing_bytes plan.now versions) }
{
    let mut text = insert_stage(alloc, plan, versions)?;
    text.append(remove_stage(alloc, plan)?)?;
    Ok(text)
}

/// Records on their way: those of a literal that grows, and how many literals stand in the array of records.
#[derive(Drop)]
pub(crate) struct Loader {
    pub(crate) batch: Batch,
    pub(crate) versions: u64,
}

impl Loader {
    /// No records. The first will have this number.
    pub(crate) fn new(alloc: Global, first: u64) -> Result<Loader, Memory>
        ensures { (plan : LoadPlan) → IfOk result (λ loader.
            IsLoading plan first loader.batch.text loader.batch.first loader.batch.count loader.versions [] []) }
    {
        Ok(Loader {
            batch: Batch::new(alloc, first)?,
            versions: 0,
        })
    }

    /// Adds a record, and gives the statements that go before it.
    pub(crate) fn add(
        &mut self,
        alloc: Global,
        plan: &LoadPlan,
        values: &[Datum],
        buffer: &mut Bytes,
    ) -> Result<Bytes, BatchFault>
        requires { IsTrue (are_spellable values.now) }
        ensures { (from : ℕ) (script : List ℕ) (rows : List (List Datum))
            → IsLoading plan.now from self.old.batch.text self.old.batch.first self.old.batch.count self.old.versions script rows
            → IfOk result (λ more. IsLoading plan.now from self.new.batch.text self.new.batch.first self.new.batch.count self.new.versions
            (script ++ more) (rows ++ values.now ∷ [])) }
    {
        if self.batch.push(values, buffer)? {
            return Ok(Bytes::new(alloc));
        }
        if self.batch.count == 0 || self.versions == u64::MAX {
            return Err(BatchFault::TooLong);
        }
        let Some(next) = self.batch.first.checked_add(self.batch.count) else {
            return Err(BatchFault::TooLong);
        };
        let empty = Batch::new(alloc, next)?;
        let full = replace(&mut self.batch, empty);
        let text = staged(alloc, plan, full, self.versions)?;
        self.versions += 1;
        if self.batch.push(values, buffer)? {
            Ok(text)
        } else {
            Err(BatchFault::TooLong)
        }
    }

    /// The statements behind all records.
    pub(crate) fn finish(self, alloc: Global, plan: &LoadPlan) -> Result<Bytes, BatchFault>
        ensures { (from : ℕ) (script : List ℕ) (rows : List (List Datum))
            → IsLoading plan.now from self.batch.text self.batch.first self.batch.count self.versions script rows
            → IfOk result (λ more. IsLoad plan.now from (script ++ more) rows) }
    {
        let Loader { batch, versions } = self;
        if versions == 0 && batch.count == 0 {
            return Ok(Bytes::new(alloc));
        }
        if versions == 0 {
            let text = direct(alloc, plan, batch)?;
            return Ok(text);
        }
        let Some(after) = versions.checked_add(1) else {
            return Err(BatchFault::TooLong);
        };
        let mut text = staged(alloc, plan, batch, versions)?;
        text.append(closing(alloc, plan, after)?)?;
        Ok(text)
    }
}

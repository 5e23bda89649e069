//! Laws of arrays by their cores.
ghost use Rattle.array_parts.specs.CoresLaws.{ArraysAreTheirCores, ArraysHaveCells, CoresAreRows, ValidChunksHaveCells};

/// The chunks of an array have cells of its schema.
#[tactic(auto, using(crate::proofs::CoreLaws::arrays_have_cells))]
pub fn arrays_have_cells()
    ensures { ArraysHaveCells }
{}

/// An array stands for what its cores hold.
#[tactic(auto, using(crate::proofs::CoreLaws::arrays_are_their_cores))]
pub fn arrays_are_their_cores()
    ensures { ArraysAreTheirCores }
{}

/// The rows of cores are those of an array.
#[tactic(auto, using(crate::proofs::CoreLaws::cores_are_rows))]
pub fn cores_are_rows()
    ensures { CoresAreRows }
{}

/// Valid chunks have cells of their schema.
#[tactic(auto, using(crate::proofs::PlaceRows::valid_chunks_have_cells))]
pub fn valid_chunks_have_cells()
    ensures { ValidChunksHaveCells }
{}

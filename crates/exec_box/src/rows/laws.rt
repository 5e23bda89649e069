//! Laws of rows that are moved.
ghost use Rattle.exec_box.specs.Laws.{SlicesAreArrays, SubarraysAreArrays};

/// The rows of parts and of slices are those of the new schemas.
#[tactic(auto, using(crate::proofs::PartLaws::subarrays_are_arrays, crate::proofs::SliceLaws::slices_are_arrays))]
pub fn moved_rows_are_arrays()
    ensures subarray { SubarraysAreArrays }
    ensures slice { SlicesAreArrays }
{}

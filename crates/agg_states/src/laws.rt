//! Laws of sets of cells.
ghost use Rattle.agg_states.specs.Laws.{CellsInAnyOrder, SetsInAnyOrder, SetsInAnyGroups};

/// A set of cells does not depend on the order in which they came. So what a state tells does not either.
#[tactic(auto, using(crate::proofs::Orders::cells_in_any_order, crate::proofs::Orders::sets_in_any_order, crate::proofs::Orders::sets_in_any_groups))]
pub fn order_does_not_matter()
    ensures cells { CellsInAnyOrder }
    ensures sets { SetsInAnyOrder }
    ensures groups { SetsInAnyGroups }
{}

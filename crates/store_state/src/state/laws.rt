//! What holds of stores.
ghost use Rattle.store_state.specs.At.{IsAt};
ghost use Rattle.store_state.specs.Laws.{PinnedCellsStay, ReapsAreFew, StoresOpenAgain};
ghost use Rattle.store_state.specs.Worked.{worked_moment, worked_store, worked_keeping};

use afl_outside::Disk;

/// Two chunks of one number that are read under a pin are the same, however many entries come in between.
pub fn pinned_cells_stay<D: Disk>()
    ensures { PinnedCellsStay D }
{}

/// A store's history has at most three reaps a pin.
pub fn reaps_are_few()
    ensures { ReapsAreFew }
{}

/// Each image that has stood for a database opens: a store that is opened over it begins as the database after a beginning of the history, or
/// as that after one change more that a session had tried.
pub fn stores_open_again()
    ensures { StoresOpenAgain }
{}

/// There is a store: one that was just opened over a file of one array with two cells, on an honest disk that tells these bytes.
pub fn a_store_is_kept()
    ensures { IsAt worked_moment worked_store worked_keeping }
{}

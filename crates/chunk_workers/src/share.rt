//! How many workers pieces are given to, and which run of them falls to whom.
ghost use Rattle.std.specs.Prelude.{◌≤◌};

/// How many pieces each worker has at least.
const PIECES_EACH: usize = 2;

/// The work of how many cells each worker has at least: a thread costs some 20 microseconds, a cell 10 to 100 nanoseconds.
const CELLS_EACH: usize = 4_000;

/// So many workers, or fewer where they would have too few pieces or cells each. All pieces are the work of about so many cells.
pub(crate) fn worth(pieces: usize, cells: usize, workers: u32) -> u32
    ensures { result ≤ workers }
{
    let runs = (pieces / PIECES_EACH).min(cells / CELLS_EACH);
    let most = u32::try_from(runs).unwrap_or(workers);
    most.min(workers)
}

/// Of `pieces` the share of so many workers among all of them.
pub(crate) fn share(pieces: usize, few: u32, workers: u32) -> usize
    ensures { result ≤ pieces }
{
    if workers == 0 {
        return 0;
    }
    let share = pieces.saturating_mul(few as usize) / workers as usize;
    share.min(pieces)
}

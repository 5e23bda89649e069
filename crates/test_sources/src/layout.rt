//! The chunks of the example.
ghost use Rattle.std.specs.Prelude.{◌≡◌};
ghost use Rattle.test_sources.specs.Example.{length_in, overlap_in};

/// In which chunks the cells lie.
#[derive(Clone, Copy)]
pub(crate) enum Layout {
    /// In chunks of one place.
    Singles,
    /// In chunks of two places, with one more on both sides.
    Pairs,
    /// In one chunk of all places.
    Whole,
}

impl Layout {
    /// How many places a chunk has.
    pub(crate) fn chunk_length(self) -> u64
        ensures { result ≡ length_in self }
    {
        match self {
            Layout::Singles => 1,
            Layout::Pairs => 2,
            Layout::Whole => 4,
        }
    }

    /// How many places of its neighbours a chunk has on both sides.
    pub(crate) fn overlap(self) -> u64
        ensures { result ≡ overlap_in self }
    {
        match self {
            Layout::Singles => 0,
            Layout::Pairs => 1,
            Layout::Whole => 0,
        }
    }
}

/// The layout of a word: two places where it says none.
pub(crate) fn layout_of(word: &str) -> Layout {
    match word {
        "singles" => Layout::Singles,
        "whole" => Layout::Whole,
        _ => Layout::Pairs,
    }
}

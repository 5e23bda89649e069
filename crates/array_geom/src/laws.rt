//! Laws of boxes, cores, frames and places.
ghost use Rattle.array_geom.specs.Laws.{ChunksHaveOneMeaning, ChunksHaveTheirRows, MeetHoldsBoth, ShiftedHoldsMoved};
ghost use Rattle.array_geom.specs.Laws.{LowestIsInside, WhatHoldsIsOrdered, CoresCover, CoresLieApart};
ghost use Rattle.array_geom.specs.Laws.{CoreIsWithinBounds, CoreIsInFrame, PlaceOfCoordinate, CoordinateAtPlace};

/// What a box holds that two boxes share, or that is moved, and which boxes hold something.
#[tactic(auto, using(crate::proofs::LawProofs::meet_holds_both, crate::proofs::LawProofs::shifted_holds_moved, crate::proofs::LawProofs::lowest_is_inside, crate::proofs::LawProofs::what_holds_is_ordered))]
pub fn boxes_hold_coordinates()
    ensures meet { MeetHoldsBoth }
    ensures shift { ShiftedHoldsMoved }
    ensures lowest { LowestIsInside }
    ensures ordered { WhatHoldsIsOrdered }
{}

/// Cores cover the bounds, lie apart, and lie within the bounds and in their frames.
#[tactic(auto, using(crate::proofs::LawProofs::cores_cover, crate::proofs::LawProofs::cores_lie_apart, crate::proofs::LawProofs::core_is_within_bounds, crate::proofs::LawProofs::core_is_in_frame))]
pub fn cores_are_parts()
    ensures cover { CoresCover }
    ensures apart { CoresLieApart }
    ensures within { CoreIsWithinBounds }
    ensures framed { CoreIsInFrame }
{}

/// `position` and `place` are inverse on a frame.
#[tactic(auto, using(crate::proofs::LawProofs::place_of_coordinate, crate::proofs::LawProofs::coordinate_at_place))]
pub fn position_and_place_are_inverse()
    ensures place { PlaceOfCoordinate }
    ensures position { CoordinateAtPlace }
{}

/// The core cells of an array's chunks are its rows, so that chunks are those of one array alone.
#[tactic(auto, using(crate::proofs::LinkLaws::chunks_have_their_rows, crate::proofs::LinkLaws::chunks_have_one_meaning))]
pub fn chunks_are_one_array()
    ensures rows { ChunksHaveTheirRows }
    ensures one { ChunksHaveOneMeaning }
{}

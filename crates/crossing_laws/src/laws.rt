//! The main laws, each as the contract of a function that does nothing.

ghost use Rattle.crossing_laws.specs.Laws.{NeedNoHair, NumbersOfP, NumbersOfQ, PlainWaysBackOut, PlainWaysOut, WaysBackOut, WaysOut};

/// The number of crossings of an edge and a face under exact tests is 1 or -1 where the segment goes through the face, by the
/// common sign of five volumes, else 0; and the winding number of a corner is the sum of such numbers along any way out.
pub fn crossings_are_geometric()
    ensures of_p { NumbersOfP }
    ensures of_q { NumbersOfQ }
    ensures plain { NeedNoHair }
    ensures ways { WaysOut }
    ensures ways_back { WaysBackOut }
    ensures plain_ways { PlainWaysOut }
    ensures plain_ways_back { PlainWaysBackOut }
{}

//! The main laws, each as the contract of a function that does nothing.

ghost use Rattle.chain_laws.specs.Laws.{
  ClosedMeansOddSumsVanish,
  BoundaryDecidesSums,
  RenamingKeepsClosed,
  BoundaryGivesArea,
  EdgesConserve,
  PairsAgree,
  NumberIsWithin,
  NumberHasBothSides,
  TwinsPairUp,
  WalksReturn,
  CyclesHaveTheEdges,
};

/// A chain is closed exactly where every odd function of its edges adds up to nothing.
pub fn odd_sums_vanish()
    ensures closed { ClosedMeansOddSumsVanish }
    ensures renamed { RenamingKeepsClosed }
{}

/// Two chains have one boundary exactly where every odd function has one sum over both.
///
/// So triangles have the doubled area of their boundary.
pub fn boundary_decides_sums()
    ensures sums { BoundaryDecidesSums }
    ensures area { BoundaryGivesArea }
{}

/// Winding numbers change along an edge by its crossings, and two triangles have one number from either side.
pub fn crossings_are_conserved()
    ensures edges { EdgesConserve }
    ensures pairs { PairsAgree }
{}

/// Twice the number of a signed list differs from its whole by at most its weight.
///
/// With whole 0, a number that is not 0 has counts on both sides.
pub fn numbers_are_small()
    ensures within { NumberIsWithin }
    ensures sides { NumberHasBothSides }
{}

/// On a closed chain the k-th edge of one direction and the k-th of the other are twins of each other.
pub fn twins_pair_up()
    ensures { TwinsPairUp }
{}

/// Going along a map that has an inverse leads back to where it began.
///
/// A chain with as many edges from as to each vertex falls into cycles.
pub fn walks_return()
    ensures walk { WalksReturn }
    ensures cycles { CyclesHaveTheEdges }
{}

// A hole in hand.
use crate::flat::FlatPoints;
use crate::obstacles::Obstacles;
use crate::places::Places;
use crate::runs::Runs;

/// The hole that is joined next, with the rings and the later holes, past which its bridge must run.
#[derive(Clone, Copy, Drop)]
pub struct Joining<'a> {
    /// The points of the vertices.
    pub flat: FlatPoints<'a>,
    /// The rings so far.
    pub rings: &'a [Places],
    /// Runs of the places of each.
    pub runs: &'a [Runs],
    /// The hole, from its start.
    pub hole: &'a [u32],
    /// The holes that come after it.
    pub later: &'a [Places],
    /// What bars its bridge: the edges of all these, and the bridges so far.
    pub obstacles: &'a Obstacles,
}

// Runs of a ring's places with a box round each, so that a pass leaves out those that are far away.
ghost use Rattle.std.specs.Prelude.{◌≡◌, ℤ, ◌+◌, ◌≤◌, ◌<◌, ◌^◌, true, length, IfOk, OnOk};
ghost use Rattle.std.specs.List.{All};
ghost use Rattle.face_plane.specs.Planes.{Plane, squared_distance};
ghost use Rattle.hole_joining.specs.Runs.{IsRound, AreRuns, HaveRuns, IsFar, both, run_at, without, spread};
ghost use Rattle.hole_joining.specs.Seen.{plane_at};

use crate::bridge::Bridge;
use crate::flat::{FlatPoints, greater, lesser};
use crate::places::Places;
use crate::vertices::vertex_at;
use face_plane::FlatPoint;
use mb_base::NoMemory;
use std::alloc::Global;
use std::marker::Model;

// How many places a run has when it is made.
const RUN: usize = 64;

/// How many places follow one another, and a box round their points.
#[derive(Clone, Copy, Drop)]
pub struct Run {
    /// How many places.
    pub count: usize,
    /// The least coordinates.
    pub low: FlatPoint,
    /// The greatest ones.
    pub high: FlatPoint,
}

/// Runs of a ring's places, one after the other from the first place on. Places at the end may be in none.
#[derive(Drop)]
pub struct Runs {
    runs: Vec<Run>,
    // How many places the ring had when the runs were made.
    made: usize,
}

impl Model for Runs {
    ghost use Rattle.std.specs.Prelude.{List};
    ghost use Rattle.hole_joining.specs.declared.runs.Run.{Run};

    ghost Value = { List Run };

    ghost view = { λ r. r.runs.items };
}

impl Run {
    // The run with as many places more, whose points lie in the other's box.
    fn with(&self, other: &Run) -> Run
        requires { self.now.count + other.now.count < 2 ^ 64 }
        ensures { result ≡ both self.now other.now }
    {
        Run {
            count: self.count + other.count,
            low: lesser(self.low, other.low),
            high: greater(self.high, other.high),
        }
    }

    /// Whether no point of the box is nearer to a point than the best bridge is long.
    pub fn is_far(&self, from: FlatPoint, best: Option<Bridge>) -> bool
        ensures { result ≡ true → (p : ℤ × ℤ) → IsRound self.now p → IsFar best (squared_distance from p) }
    {
        match best {
            None => false,
            Some(bridge) => {
                let nearest = lesser(greater(from, self.low), self.high);
                bridge.squared_length <= FlatPoint::squared_distance(from, nearest)
            }
        }
    }
}

// A run of one place.
fn run_at(at: FlatPoint) -> Run
    ensures { result ≡ run_at at }
{
    Run {
        count: 1,
        low: at,
        high: at,
    }
}

/// The run of these places.
fn run_of(flat: &FlatPoints, places: &[u32]) -> Run
    ensures count { result.count ≡ length places.now }
    ensures round { All (λ v. IsRound result (plane_at flat.now v)) places.now }
{
    let first = flat.at(vertex_at(places, 0));
    let mut run = Run {
        count: 0,
        low: first,
        high: first,
    };
    for vertex in places {
        run = run.with(&run_at(flat.at(*vertex)));
    }
    run
}

impl Runs {
    /// The runs in order.
    pub fn as_slice(&self) -> &[Run]
        ensures { result.now ≡ self.now }
    {
        &self.runs
    }

    /// Runs of the places of a ring.
    pub fn of(alloc: Global, flat: &FlatPoints, ring: &[u32]) -> Result<Runs, NoMemory>
        ensures { IfOk result (λ runs. AreRuns (plane_at flat.now) runs ring.now) }
    {
        let mut runs = Vec::with_capacity(alloc, ring.len() / RUN)?;
        for k in 0..ring.len() / RUN {
            let run = run_of(flat, &ring[k * RUN..k * RUN + RUN]);
            runs.push(run)?;
        }
        Ok(Runs {
            runs,
            made: ring.len(),
        })
    }

    // The run with a place of the ring is wider by places behind that one.
    fn widen(&mut self, place: usize, more: &Run)
        requires { All (λ r. r.count + more.now.count < 2 ^ 64) self.old }
        ensures { self.new ≡ spread self.old place more.now }
    {
        let mut before = place;
        for k in 0..self.runs.len() {
            let run = self.runs[k];
            if before < run.count {
                self.runs[k] = run.with(more);
                return;
            }
            before -= run.count;
        }
    }

    /// The runs of a ring into which so many places were put behind one. They are made anew once it has grown by a quarter.
    pub fn follow(
        &mut self,
        alloc: Global,
        flat: &FlatPoints,
        ring: &[u32],
        place: usize,
        count: usize,
    ) -> Result<(), NoMemory>
        requires within { place + 1 + count ≤ length ring.now }
        requires small { length ring.now < 2 ^ 32 }
        requires runs { AreRuns (plane_at flat.now) self.old (without (place + 1) count ring.now) }
        ensures { OnOk result (AreRuns (plane_at flat.now) self.new ring.now) }
    {
        if ring.len() - ring.len() / 4 > self.made {
            *self = Runs::of(alloc, flat, ring)?;
        } else {
            let more = run_of(flat, &ring[place + 1..place + 1 + count]);
            self.widen(place, &more);
        }
        Ok(())
    }
}

/// Runs of each ring.
pub fn runs_of(alloc: Global, flat: &FlatPoints, rings: &[Places]) -> Result<Vec<Runs>, NoMemory>
    ensures { IfOk result (λ runs. HaveRuns (plane_at flat.now) rings.now runs.items) }
{
    let mut runs = Vec::with_capacity(alloc, rings.len())?;
    for ring in rings {
        runs.push(Runs::of(alloc, flat, &ring.places)?)?;
    }
    Ok(runs)
}

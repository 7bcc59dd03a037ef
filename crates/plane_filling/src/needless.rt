// Places that all walks pass straight.
ghost use Rattle.std.specs.Prelude.{◌≡◌, ◌<◌, ◌^◌, ◌++◌, ℕ, List, [], IfOk, length};
ghost use Rattle.std.specs.List.{All};
ghost use Rattle.chain_terms.specs.Paths.{round_edges};
ghost use Rattle.sheet_terms.specs.Needless.{is_needless};
ghost use Rattle.plane_filling.specs.Begun.{without};
ghost use Rattle.plane_filling.specs.Rounds.{round_from};
ghost use Rattle.plane_filling.specs.Ways.{Notes, is_passed, lies_between, with_edges, with_place, with_way};
ghost use Rattle.sheet_terms.specs.Cuts.{are_in_line};
ghost use Rattle.tidy_terms.specs.PointTriples.{same_point};

use mb_base::{NoMemory, Point, cross};
use std::alloc::Global;

/// The number that stands for none.
const NO_PLACE: u32 = u32::MAX;

/// The places to which the edges of walks lead from one: the first two, and whether there are more.
#[derive(Clone, Copy, Drop)]
struct Leads {
    one: u32,
    other: u32,
    more: bool,
}

const NO_LEADS: Leads = Leads {
    one: NO_PLACE,
    other: NO_PLACE,
    more: false,
};

impl Leads {
    // With one place more; the same where it is there already.
    fn with(self, place: u32) -> Leads
        ensures { result ≡ with_place self place }
    {
        let Leads { one, other, more } = self;
        if one == place || other == place {
            self
        } else if one == NO_PLACE {
            Leads {
                one: place,
                other,
                more,
            }
        } else if other == NO_PLACE {
            Leads {
                one,
                other: place,
                more,
            }
        } else {
            Leads {
                one,
                other,
                more: true,
            }
        }
    }
}

/// For each place those to which the edges of walks lead from it.
#[derive(Drop)]
pub struct Ways {
    leads: Vec<Leads>,
}

impl Ways {
    /// No walks over so many places.
    pub fn none(alloc: Global, count: usize) -> Result<Ways, NoMemory>
        requires { count < 2 ^ 32 }
        ensures count { IfOk result (λ ways. length ways.leads.items ≡ count) }
        ensures notes { IfOk result (Notes []) }
    {
        Ok(Ways {
            leads: vec![in alloc; NO_LEADS; count]?,
        })
    }

    /// Notes the edges of a walk.
    pub fn note_walk(&mut self, walk: &[u32])
        requires { All (λ v. v < length self.old.leads.items) walk.now }
        ensures count { length self.new.leads.items ≡ length self.old.leads.items }
        ensures notes { (es : List (ℕ × ℕ)) → Notes es self.old → Notes (es ++ round_edges walk.now) self.new }
    {
        if let Some((first, rest)) = walk.split_first() {
            self.note_round(*first, rest);
        }
    }

    // Notes the edges of a walk of a first place and others.
    fn note_round(&mut self, first: u32, rest: &[u32])
        requires first { first < length self.old.leads.items }
        requires rest { All (λ v. v < length self.old.leads.items) rest.now }
        ensures { self.new.leads.items ≡ with_edges (round_from first first rest.now) self.old.leads.items }
    {
        let mut last = first;
        for place in rest {
            self.note_edge(last, *place);
            last = *place;
        }
        self.note_edge(last, first);
    }

    // Notes an edge, from both its ends.
    fn note_edge(&mut self, a: u32, b: u32)
        requires a { a < length self.old.leads.items }
        requires b { b < length self.old.leads.items }
        ensures { self.new.leads.items ≡ with_way (b, a) (with_way (a, b) self.old.leads.items) }
    {
        self.note(a, b);
        self.note(b, a);
    }

    // Notes that an edge leads from one place to another.
    fn note(&mut self, from: u32, to: u32)
        requires { from < length self.old.leads.items }
        ensures { self.new.leads.items ≡ with_way (from, to) self.old.leads.items }
    {
        self.leads[from as usize] = self.leads[from as usize].with(to);
    }

    /// A walk without its needless places.
    pub fn left_of(
        &self,
        alloc: Global,
        points: &[Point],
        walk: &[u32],
    ) -> Result<Vec<u32>, NoMemory>
        requires places { All (λ v. v < length points.now) walk.now }
        requires full { length self.now.leads.items ≡ length points.now }
        requires noted { (es : List (ℕ × ℕ)) × Notes es self.now }
        ensures { IfOk result (λ left. left.items ≡ without (is_passed points.now self.now) walk.now) }
    {
        let mut left = Vec::with_capacity(alloc, walk.len())?;
        for place in walk {
            if !self.is_needless(points, *place) {
                left.push(*place)?;
            }
        }
        Ok(left)
    }

    /// Whether a place is needless: edges lead from it to two places only, which are apart from it and lie on one line with it.
    pub fn is_needless(&self, points: &[Point], place: u32) -> bool
        requires place { place < length points.now }
        requires full { length self.now.leads.items ≡ length points.now }
        requires noted { (es : List (ℕ × ℕ)) × Notes es self.now }
        ensures passed { result ≡ is_passed points.now self.now place }
        ensures needless { (es : List (ℕ × ℕ)) → Notes es self.now → result ≡ is_needless points.now es place }
    {
        let leads = self.leads[place as usize];
        if leads.other == NO_PLACE || leads.more {
            return false;
        }
        lies_between(points, place, leads.one, leads.other)
    }
}

// Whether a place is apart from two others and on a line with them.
fn lies_between(points: &[Point], place: u32, one: u32, other: u32) -> bool
    requires place { place < length points.now }
    requires one { one < length points.now }
    requires other { other < length points.now }
    ensures { result ≡ lies_between points.now place one other }
{
    let at = points[place as usize];
    let (a, b) = (points[one as usize], points[other as usize]);
    !is_same_point(at, a) && !is_same_point(at, b) && are_in_line(at, a, b)
}

// Whether two points are one.
fn is_same_point(p: Point, q: Point) -> bool
    ensures { result ≡ same_point p q }
{
    let [px, py, pz] = p.at();
    let [qx, qy, qz] = q.at();
    px == qx && py == qy && pz == qz
}

// Whether three points lie on a line.
fn are_in_line(p: Point, q: Point, r: Point) -> bool
    ensures { result ≡ are_in_line p q r }
{
    let [x, y, z] = cross(p, q, r);
    x == 0 && y == 0 && z == 0
}

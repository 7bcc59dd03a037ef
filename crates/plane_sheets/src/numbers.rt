// The net numbers at both sides of an edge.
ghost use Rattle.std.specs.Prelude.{◌≡◌, ℕ, ◌+◌, ◌<◌, ◌≤◌, ◌^◌, ◌+ℤ◌, ◌*ℤ◌, ℤ, [], List, OnOk, get_or, length, map, unsigned_abs};
ghost use Rattle.std.specs.List.{All, Contains};
ghost use Rattle.plane_chains.specs.EdgeBoxes.{pair_of};
ghost use Rattle.plane_chains.specs.declared.nets.LabelNumber.{LabelNumber};
ghost use Rattle.plane_sheets.specs.Crossed.{times};
ghost use Rattle.plane_sheets.specs.Seen.{seen_in};
ghost use Rattle.plane_sheets.specs.Sides.{HasSums, RiseFrom, all_in, crosses, left_sum_of, lefts, listed, right_sum_of, rights, size_held, size_near, size_of};

use crate::beside::{Passes, crossing};
use crate::edge_ends::ends_at;
use crate::side_numbers::{SideNumbers, add};
use mb_base::NoMemory;
use plane_chains::{Chain, FlatPlaces, LabelNumber};

/// Finds the net numbers at both sides of an edge, label by label, from edges among which are all that cross the ray from beside it.
pub fn find_sides(
    sides: &mut Vec<SideNumbers>,
    flat: FlatPlaces,
    chain: &Chain,
    near: &[u32],
    edge: usize,
) -> Result<(), NoMemory>
    requires places { All (λ e. All (λ v. v < length flat.points.now) e) chain.now.edges.items }
    requires nets { length chain.now.nets.0 ≡ length chain.now.edges.items }
    requires edge { edge < length chain.now.edges.items }
    requires near { All (λ i. i < length chain.now.edges.items) near.now }
    requires small { size_near chain.now.nets.0 near.now ≤ 2 ^ 61 }
    requires own_small { size_of (get_or chain.now.nets.0 edge []) ≤ 2 ^ 61 }
    ensures left { OnOk result (HasSums chain.now.nets.0 (left_sum_of (seen_in flat.entry) (map pair_of chain.now.edges.items) chain.now.nets.0 edge near.now) (2 ^ 62)
        (lefts sides.new.items)) }
    ensures right { OnOk result (HasSums chain.now.nets.0 (right_sum_of (seen_in flat.entry) (map pair_of chain.now.edges.items) chain.now.nets.0 edge near.now) (2 ^ 62)
        (rights sides.new.items)) }
{
    sides.clear();
    for other in near {
        let other = *other as usize;
        let passes = passes_of(flat, &chain.edges, edge, other);
        add_crossed(sides, chain.numbers(other), passes)?;
    }
    add_all(sides, chain.numbers(edge), Passes::No, Passes::Down)
}

// How an edge passes another.
fn passes_of(flat: FlatPlaces, edges: &[[u32; 2]], edge: usize, other: usize) -> Passes
    requires places { All (λ e. All (λ v. v < length flat.points.now) e) edges.now }
    requires edge { edge < length edges.now }
    requires other { other < length edges.now }
    ensures { times result ≡ crosses (seen_in flat.entry) (map pair_of edges.now) edge other }
{
    let (a, b) = ends_at(flat, edges, edge);
    let (p, q) = ends_at(flat, edges, other);
    crossing(a, b, p, q)
}

// Adds the numbers of an edge as often as it passes.
fn add_crossed(
    sides: &mut Vec<SideNumbers>,
    numbers: &[LabelNumber],
    passes: Passes,
) -> Result<(), NoMemory>
    requires rise { RiseFrom 0 (lefts sides.old.items) }
    requires left_fits { size_held (lefts sides.old.items) + size_of numbers.now < 2 ^ 63 }
    requires right_fits { size_held (rights sides.old.items) + size_of numbers.now < 2 ^ 63 }
    ensures left { OnOk result ((nets : List (List LabelNumber)) (f : ℕ → ℤ) (w : ℕ) → Contains nets numbers.now → HasSums nets f w (lefts sides.old.items) →
        HasSums nets (λ k. f k +ℤ listed numbers.now k *ℤ times passes) (w + size_of numbers.now) (lefts sides.new.items)) }
    ensures right { OnOk result ((nets : List (List LabelNumber)) (f : ℕ → ℤ) (w : ℕ) → Contains nets numbers.now → HasSums nets f w (rights sides.old.items) →
        HasSums nets (λ k. f k +ℤ listed numbers.now k *ℤ times passes) (w + size_of numbers.now) (rights sides.new.items)) }
{
    match passes {
        Passes::No => Ok(()),
        _ => add_all(sides, numbers, passes, passes),
    }
}

// Adds numbers at the left and at the right, as often as said.
fn add_all(
    sides: &mut Vec<SideNumbers>,
    numbers: &[LabelNumber],
    left: Passes,
    right: Passes,
) -> Result<(), NoMemory>
    requires rise { RiseFrom 0 (lefts sides.old.items) }
    requires left_fits { size_held (lefts sides.old.items) + size_of numbers.now < 2 ^ 63 }
    requires right_fits { size_held (rights sides.old.items) + size_of numbers.now < 2 ^ 63 }
    ensures left { OnOk result (lefts sides.new.items ≡ all_in (times left) numbers.now (lefts sides.old.items)) }
    ensures right { OnOk result (rights sides.new.items ≡ all_in (times right) numbers.now (rights sides.old.items)) }
{
    for each in numbers {
        let (x, y) = (signed(each.number, left), signed(each.number, right));
        add(sides, each.label, x, y)?;
    }
    Ok(())
}

// A number as often as said.
fn signed(number: i64, passes: Passes) -> i64
    requires { unsigned_abs number < 2 ^ 63 }
    ensures value { result ≡ number *ℤ times passes }
    ensures small { unsigned_abs result ≤ unsigned_abs number }
{
    match passes {
        Passes::Up => number,
        Passes::Down => -number,
        Passes::No => 0,
    }
}

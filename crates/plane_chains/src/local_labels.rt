// The labels of a plane.
ghost use Rattle.std.specs.Prelude.{◌≡◌, ◌==◌, ◌<◌, ◌≤◌, ◌^◌, IfOk, OnOk, IsTrue, get_or, length, replicate, take};
ghost use Rattle.std.specs.List.{All};
ghost use Rattle.plane_chains.specs.Listed.{first_places, picked};
ghost use Rattle.sheet_terms.specs.Places.{firsts};

use indexmap::IndexSet;
use mb_base::NoMemory;
use std::alloc::Global;

/// The labels of a plane's triangles, numbered in the order of their first ones: the number for each triangle, and for each number the first triangle that has
/// that label.
#[derive(Drop)]
pub struct LocalLabels {
    pub of: Vec<u32>,
    pub firsts: Vec<u32>,
}

impl LocalLabels {
    /// The labels of these triangles, from numbers that are the same where labels are.
    pub fn of(alloc: Global, labels: &[u32], numbers: &[u32]) -> Result<LocalLabels, NoMemory>
        requires below { All (λ t. t < length labels.now) numbers.now }
        requires few { length numbers.now ≤ 2 ^ 32 }
        ensures of { IfOk result (λ l. l.of.items ≡ first_places (picked labels.now numbers.now)) }
        ensures firsts { IfOk result (λ l. picked labels.now l.firsts.items ≡ firsts (λ j k. j == k) (picked labels.now numbers.now)) }
        ensures below { IfOk result (λ l. All (λ t. t < length labels.now) l.firsts.items) }
    {
        if are_same(labels, numbers) {
            return LocalLabels::alone(alloc, numbers);
        }
        LocalLabels::each(alloc, labels, numbers)
    }

    // All of one label.
    fn alone(alloc: Global, numbers: &[u32]) -> Result<LocalLabels, NoMemory>
        ensures of { IfOk result (λ l. l.of.items ≡ replicate (length numbers.now) 0) }
        ensures firsts { IfOk result (λ l. l.firsts.items ≡ take 1 numbers.now) }
    {
        let of = vec![in alloc; 0; numbers.len()]?;
        let mut firsts = Vec::new(alloc);
        if let Some(first) = numbers.first() {
            firsts.push(*first)?;
        }
        Ok(LocalLabels { of, firsts })
    }

    // Each of its own.
    fn each(alloc: Global, labels: &[u32], numbers: &[u32]) -> Result<LocalLabels, NoMemory>
        requires below { All (λ t. t < length labels.now) numbers.now }
        requires few { length numbers.now ≤ 2 ^ 32 }
        ensures of { IfOk result (λ l. l.of.items ≡ first_places (picked labels.now numbers.now)) }
        ensures firsts { IfOk result (λ l. picked labels.now l.firsts.items ≡ firsts (λ j k. j == k) (picked labels.now numbers.now)) }
        ensures below { IfOk result (λ l. All (λ t. t < length labels.now) l.firsts.items) }
    {
        let mut seen = IndexSet::new(alloc);
        let mut of = Vec::with_capacity(alloc, numbers.len())?;
        let mut firsts = Vec::new(alloc);
        for number in numbers {
            let (label, is_new) = seen.insert_full(labels[*number as usize])?;
            if is_new {
                firsts.push(*number)?;
            }
            of.push(label as u32)?;
        }
        Ok(LocalLabels { of, firsts })
    }
}

// Whether all triangles have one label.
fn are_same(labels: &[u32], numbers: &[u32]) -> bool
    requires { All (λ t. t < length labels.now) numbers.now }
    ensures { IsTrue result → All (λ n. n ≡ get_or (picked labels.now numbers.now) 0 0) (picked labels.now numbers.now) }
{
    for number in numbers {
        if labels[*number as usize] != labels[numbers[0] as usize] {
            return false;
        }
    }
    true
}

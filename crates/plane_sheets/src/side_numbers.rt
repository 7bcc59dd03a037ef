// Sums of numbers by label, at both sides of an edge.
ghost use Rattle.std.specs.Prelude.{◌≡◌, ℕ, ◌+◌, ◌<◌, ◌≤◌, ◌==◌, ◌&&◌, ◌^◌, ◌+ℤ◌, OnOk, get_or, length, nat_lt, unsigned_abs};
ghost use Rattle.plane_sheets.specs.Sides.{RiseFrom, lefts, no_sides, put_in, rights, size_held};

use mb_base::NoMemory;

/// A label's net numbers at the left and at the right of an edge.
#[derive(Clone, Copy, Debug, PartialEq, Eq, Drop)]
pub struct SideNumbers {
    pub label: u32,
    pub left: i64,
    pub right: i64,
}

/// Adds to the numbers of a label.
pub fn add(sides: &mut Vec<SideNumbers>, label: u32, left: i64, right: i64) -> Result<(), NoMemory>
    requires rise { RiseFrom 0 (lefts sides.old.items) }
    requires left_fits { size_held (lefts sides.old.items) + unsigned_abs left < 2 ^ 63 }
    requires right_fits { size_held (rights sides.old.items) + unsigned_abs right < 2 ^ 63 }
    ensures left { OnOk result (lefts sides.new.items ≡ put_in label left (lefts sides.old.items)) }
    ensures right { OnOk result (rights sides.new.items ≡ put_in label right (rights sides.old.items)) }
{
    let at = place_for(sides, label);
    let there = has_label(sides, at, label);
    if there {
        let more = raised(sides, at, left, right);
        sides[at] = more;
        return Ok(());
    }
    sides.insert(at, SideNumbers { label, left, right })?;
    Ok(())
}

// Those at a place, with more.
fn raised(sides: &[SideNumbers], at: usize, left: i64, right: i64) -> SideNumbers
    requires inside { at < length sides.now }
    requires left_fits { unsigned_abs (get_or sides.now at no_sides).left + unsigned_abs left < 2 ^ 63 }
    requires right_fits { unsigned_abs (get_or sides.now at no_sides).right + unsigned_abs right < 2 ^ 63 }
    ensures label { result.label ≡ (get_or sides.now at no_sides).label }
    ensures left { result.left ≡ (get_or sides.now at no_sides).left +ℤ left }
    ensures right { result.right ≡ (get_or sides.now at no_sides).right +ℤ right }
{
    let own = sides[at];
    SideNumbers {
        label: own.label,
        left: own.left + left,
        right: own.right + right,
    }
}

// The place of a label among labels that rise.
fn place_for(sides: &[SideNumbers], label: u32) -> usize
    requires { RiseFrom 0 (lefts sides.now) }
    ensures within { result ≤ length sides.now }
    ensures before { (k : ℕ) → k < result → (get_or sides.now k no_sides).label < label }
    ensures from { (k : ℕ) → result ≤ k → k < length sides.now → label ≤ (get_or sides.now k no_sides).label }
{
    sides.partition_point(|each| each.label < label)
}

// Whether a label stands at a place.
fn has_label(sides: &[SideNumbers], at: usize, label: u32) -> bool
    ensures { result ≡ (nat_lt at (length sides.now) && ((get_or sides.now at no_sides).label == label)) }
{
    at < sides.len() && sides[at].label == label
}

// Numbers that are met more than twice.
ghost use Rattle.std.specs.Prelude.{◌≡◌, ◌<◌, ◌≤◌, ◌+◌, ◌^◌, ◌==◌, ℕ, length, count_by, get_or, nat_lt, set};
ghost use Rattle.std.specs.List.{All};
ghost use Rattle.chain_terms.specs.Sums.{upto};
ghost use Rattle.inspection_laws.specs.Uses.{AreLeft, AreUses};

/// How many numbers stand more than twice at some places of a list. The list of uses is as long as the numbers go, and all 0; it is
/// so again afterwards.
pub fn met_often(lows: &[u32], places: &[u32], uses: &mut [u32]) -> u32
    requires lows { All (λ low. low < length uses.old) lows.now }
    requires places { All (λ p. p < length lows.now) places.now }
    requires few { length places.now < 2 ^ 32 }
    requires none { (s : ℕ) → get_or uses.old s 0 ≡ 0 }
    ensures value { result ≡ count_by (λ s. nat_lt 2 (count_by (λ p. get_or lows.now p 0 == s) places.now)) (upto (length uses.old)) }
    ensures none { (s : ℕ) → get_or uses.new s 0 ≡ 0 }
    ensures length { length uses.new ≡ length uses.old }
{
    let count = count_uses(lows, places, uses);
    take_back(lows, places, uses);
    count
}

// The same, where the uses are left in the list.
fn count_uses(lows: &[u32], places: &[u32], uses: &mut [u32]) -> u32
    requires lows { All (λ low. low < length uses.old) lows.now }
    requires places { All (λ p. p < length lows.now) places.now }
    requires few { length places.now < 2 ^ 32 }
    requires none { (s : ℕ) → get_or uses.old s 0 ≡ 0 }
    ensures value { result ≡ count_by (λ s. nat_lt 2 (count_by (λ p. get_or lows.now p 0 == s) places.now)) (upto (length uses.old)) }
    ensures uses { AreUses lows.now places.now uses.new (length uses.old) (length places.now) }
{
    let mut count = 0;
    for place in places {
        if is_third(uses, lows[*place as usize] as usize) {
            count += 1;
        }
    }
    count
}

// One use more of a number, and whether it is the third.
#[inline]
fn is_third(uses: &mut [u32], low: usize) -> bool
    requires within { low < length uses.old }
    requires few { get_or uses.old low 0 + 1 < 2 ^ 32 }
    ensures uses { uses.new ≡ set uses.old low (get_or uses.old low 0 + 1) }
    ensures third { result ≡ (get_or uses.old low 0 + 1 == 3) }
{
    let count = uses[low] + 1;
    uses[low] = count;
    count == 3
}

// Takes the uses back.
fn take_back(lows: &[u32], places: &[u32], uses: &mut [u32])
    requires lows { All (λ low. low < length uses.old) lows.now }
    requires places { All (λ p. p < length lows.now) places.now }
    requires uses { AreUses lows.now places.now uses.old (length uses.old) (length places.now) }
    ensures none { (s : ℕ) → get_or uses.new s 0 ≡ 0 }
    ensures length { length uses.new ≡ length uses.old }
{
    for place in places {
        let low = lows[*place as usize] as usize;
        uses[low] -= 1;
    }
}

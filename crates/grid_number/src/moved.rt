// What digits spell, moved by places.
ghost use Rattle.std.specs.Prelude.{◌≡◌, ℕ, ◌+◌, ◌-◌, ◌*◌, ◌^◌, ◌<◌, ◌≤◌, ◌++◌, IsTrue, pos, neg_ℤ, nat_lt, if◌then◌else◌, get_or, length};
ghost use Rattle.text_terms.specs.Numbers.{is_digit, all_digits, digits_value, scaled};
ghost use Rattle.grid_number.specs.Reading.{carry_of, saturated, saturation};

use crate::digits::{FULL, appended, spelled_after};

// Moved up: zeros are added. With twenty of them anything but 0 is full.
pub fn raised(spelled: u64, places: u128) -> u64
    requires { spelled ≤ saturation }
    ensures { result ≡ saturated (spelled * 10 ^ places) }
{
    let mut size = spelled;
    for _place in 0..places.min(20) as u8 {
        size = appended(size, b'0');
    }
    size
}

// Moved down: the last digits are dropped, and the size is rounded by the first of them.
pub fn lowered(whole: &[u8], fraction: &[u8], places: u128) -> u64
    requires some { 1 ≤ places }
    requires whole { IsTrue (all_digits whole.now) }
    requires fraction { IsTrue (all_digits fraction.now) }
    ensures { let digits = whole.now ++ fraction.now in
        result ≡ saturated (scaled (digits_value digits) (neg_ℤ (pos places))) }
{
    if places > whole.len() as u128 + fraction.len() as u128 {
        return 0;
    }
    let places = places as usize;
    if places <= fraction.len() {
        let (kept, lost) = fraction.split_at(fraction.len() - places);
        rounded(spelled_after(spelled_after(0, whole), kept), lost)
    } else {
        let (kept, lost) = whole.split_at(whole.len() - (places - fraction.len()));
        rounded(spelled_after(0, kept), lost)
    }
}

// One more where the first dropped digit is 5 or more.
fn rounded(kept: u64, lost: &[u8]) -> u64
    requires kept { kept ≤ saturation }
    requires some { 0 < length lost.now }
    ensures { result ≡ saturated (kept + carry_of (get_or lost.now 0 0)) }
{
    let first = lost[0];
    if first < b'5' || kept == FULL {
        kept
    } else {
        kept + 1
    }
}

// Runs of digits and what they spell, as far as a word holds it.
ghost use Rattle.std.specs.Prelude.{◌≡◌, ◌+◌, ◌-◌, ◌*◌, ◌^◌, ◌<◌, ◌≤◌, ◌++◌, IsTrue, IsFalse};
ghost use Rattle.text_terms.specs.Numbers.{is_digit, all_digits, value_from};
ghost use Rattle.grid_number.specs.Reading.{begins_digit, saturated, saturation};

// A size counts no further than this. Any size near it is off the grid, and no text is as long.
pub const FULL: u64 = 10 << 60;

// The digits at the front of a text, what they spell behind the digits before them, and the text after them.
#[derive(Clone, Copy)]
pub struct LeadingDigits<'t> {
    pub digits: &'t [u8],
    pub value: u64,
    pub rest: &'t [u8],
}

// The digits at the front of a text, behind digits that spell `before`.
pub fn leading_digits<'t>(text: &'t [u8], before: u64) -> LeadingDigits<'t>
    requires { before ≤ saturation }
    ensures split { text.entry.now ≡ result.digits.now ++ result.rest.now }
    ensures digits { IsTrue (all_digits result.digits.now) }
    ensures ends { IsFalse (begins_digit result.rest.now) }
    ensures value { result.value ≡ saturated (value_from before result.digits.now) }
{
    let mut value = before;
    for (place, byte) in text.iter().enumerate() {
        if !byte.is_ascii_digit() {
            let (digits, rest) = text.split_at(place);
            return LeadingDigits {
                digits,
                value,
                rest,
            };
        }
        value = appended(value, *byte);
    }
    LeadingDigits {
        digits: text,
        value,
        rest: &[],
    }
}

// What digits spell, behind digits that spell `before`.
pub fn spelled_after(before: u64, digits: &[u8]) -> u64
    requires full { before ≤ saturation }
    requires digits { IsTrue (all_digits digits.now) }
    ensures { result ≡ saturated (value_from before digits.now) }
{
    let mut value = before;
    for digit in digits {
        value = appended(value, *digit);
    }
    value
}

// One digit more.
pub fn appended(value: u64, digit: u8) -> u64
    requires full { value ≤ saturation }
    requires digit { IsTrue (is_digit digit) }
    ensures { result ≡ saturated (value * 10 + (digit - 48)) }
{
    let has_room = value < FULL / 10;
    if has_room {
        value * 10 + u64::from(digit - b'0')
    } else {
        FULL
    }
}

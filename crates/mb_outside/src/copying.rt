// Copying a part of a text into a buffer.
ghost use Rattle.std.specs.Prelude.{◌≡◌, ◌<◌, ◌-◌, length, min};
ghost use Rattle.run_terms.specs.Files.{ReadsAt};

/// Copies bytes of a text, from the place `at` on and at most `most`, to the front of `into`, and answers how many.
pub fn copy_from(text: &[u8], at: u64, most: usize, into: &mut [u8]) -> usize
    requires { 0 < most }
    ensures count { result ≡ min most (min (length into.old) (length text.now - at)) }
    ensures bytes { ReadsAt text.now at into.old into.new result }
{
    if at >= text.len() as u64 {
        return 0;
    }
    let (_, rest) = text.split_at(at as usize);
    let count = most.min(into.len()).min(rest.len());
    let (front, _) = rest.split_at(count);
    into[..count].copy_from_slice(front);
    count
}

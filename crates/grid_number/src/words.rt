// The words of a line.
ghost use Rattle.std.specs.Prelude.{◌≡◌, ◌<◌, ◌∷◌, [], not, length, IsTrue, IfSome, IfNone};
ghost use Rattle.std.specs.List.{position_or_len};
ghost use Rattle.text_terms.specs.Lines.{is_blank, begins_word, is_comment, words_of};

/// The first word of a line, and what comes after it. None where the line has no word.
pub fn first_word(line: &[u8]) -> Option<(&[u8], &[u8])>
    ensures word { IfSome result (λ r. words_of line.now ≡ r.0.now ∷ words_of r.1.now) }
    ensures none { IfNone result (words_of line.now ≡ []) }
{
    let text = after_blanks(line);
    if text.is_empty() {
        return None;
    }
    Some(text.split_at(first_blank(text)))
}

/// A text from its first byte on that is neither a space nor a tab.
pub fn after_blanks(text: &[u8]) -> &[u8]
    ensures words { words_of result.now ≡ words_of text.now }
    ensures word { 0 < length result.now → IsTrue (begins_word result.now) }
{
    let (_, rest) = text.split_at(first_mark(text));
    rest
}

/// Whether a word begins a comment: its first byte is `#`.
pub fn is_comment(word: &[u8]) -> bool
    ensures { result ≡ is_comment word.now }
{
    !word.is_empty() && word[0] == b'#'
}

// Whether a byte separates words.
fn is_blank(byte: u8) -> bool
    ensures { result ≡ is_blank byte }
{
    byte == b' ' || byte == b'\t'
}

// The place of the first byte that is no blank, or the length.
fn first_mark(text: &[u8]) -> usize
    ensures { result ≡ position_or_len (λ c. not (is_blank c)) text.now }
{
    text.iter()
        .position(|byte| !is_blank(*byte))
        .unwrap_or(text.len())
}

/// The place of the first space or tab, or the length.
pub fn first_blank(text: &[u8]) -> usize
    ensures { result ≡ position_or_len is_blank text.now }
{
    text.iter()
        .position(|byte| is_blank(*byte))
        .unwrap_or(text.len())
}

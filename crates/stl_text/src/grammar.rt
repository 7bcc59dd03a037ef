// What each word of a file may be, and what comes after it.
ghost use Rattle.std.specs.Prelude.{◌≡◌};
ghost use Rattle.std.specs.Option.{option_map};
ghost use Rattle.format_terms.specs.StlGrammar.{after_key, after_turn, after_word};
ghost use Rattle.stl_text.specs.Places.{place_of};

/// What the next word of a file has to be.
#[derive(Clone, Copy, Debug, PartialEq, Eq, Drop)]
pub enum Place {
    /// `solid`, and no solid was read so far.
    BeforeSolid,
    /// `facet` or `endsolid`.
    InSolid,
    Normal,
    /// Any word in place of a number of the normal.
    NormalX,
    NormalY,
    NormalZ,
    Outer,
    Loop,
    Vertex,
    /// A number of a corner.
    Number,
    EndLoop,
    EndFacet,
    /// `solid`, or the file ends.
    AfterSolid,
}

// The place after a keyword, ASCII case ignored.
fn after_key(key: &[u8], place: Place, word: &[u8]) -> Option<Place>
    ensures { option_map place_of result ≡ after_key key.now (place_of place) word.now }
{
    if word.eq_ignore_ascii_case(key) {
        Some(place)
    } else {
        None
    }
}

/// The place after `solid` or `endsolid`, the rest of whose line is passed over.
pub fn after_turn(place: Place, word: &[u8]) -> Option<Place>
    ensures { option_map place_of result ≡ after_turn (place_of place) word.now }
{
    match place {
        Place::BeforeSolid | Place::AfterSolid => after_key(b"solid", Place::InSolid, word),
        Place::InSolid => after_key(b"endsolid", Place::AfterSolid, word),
        _ => None,
    }
}

/// The place after one of the other words but the numbers.
pub fn after_word(place: Place, word: &[u8]) -> Option<Place>
    ensures { option_map place_of result ≡ after_word (place_of place) word.now }
{
    match place {
        Place::InSolid => after_key(b"facet", Place::Normal, word),
        Place::Normal => after_key(b"normal", Place::NormalX, word),
        Place::NormalX => Some(Place::NormalY),
        Place::NormalY => Some(Place::NormalZ),
        Place::NormalZ => Some(Place::Outer),
        Place::Outer => after_key(b"outer", Place::Loop, word),
        Place::Loop => after_key(b"loop", Place::Vertex, word),
        Place::Vertex => after_key(b"vertex", Place::Number, word),
        Place::EndLoop => after_key(b"endloop", Place::EndFacet, word),
        Place::EndFacet => after_key(b"endfacet", Place::InSolid, word),
        Place::BeforeSolid | Place::Number | Place::AfterSolid => None,
    }
}

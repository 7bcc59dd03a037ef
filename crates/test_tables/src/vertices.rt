// Where vertices come from.
use crate::NoRow;
use crate::digits::push_digit;
use mb_base::{Origin, Point};

/// Adds the word of a vertex: where it comes from, `p` and a vertex of the first mesh or `q` and one of the second, `e` and an edge of the first with a face of the
/// second or `f` the other way round; then its point. Each number is one digit.
pub fn push_vertex(text: &mut String, origin: &Origin, point: &Point) -> Result<(), NoRow> {
    push_origin(text, origin)?;
    for coordinate in point.at() {
        push_digit(text, coordinate.unsigned_abs())?;
    }
    Ok(())
}

fn push_origin(text: &mut String, origin: &Origin) -> Result<(), NoRow> {
    match origin {
        Origin::PVertex { vertex } => push_word(text, 'p', *vertex, None),
        Origin::QVertex { vertex } => push_word(text, 'q', *vertex, None),
        Origin::PEdge { edge, face } => push_word(text, 'e', *edge, Some(*face)),
        Origin::QEdge { edge, face } => push_word(text, 'f', *edge, Some(*face)),
    }
}

fn push_word(text: &mut String, kind: char, number: u32, face: Option<u32>) -> Result<(), NoRow> {
    text.push(kind)?;
    push_digit(text, number)?;
    if let Some(face) = face {
        push_digit(text, face)?;
    }
    Ok(())
}

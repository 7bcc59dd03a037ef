// Winding numbers and hits in words.
use crate::NoRow;
use crate::digits::{numbers_of, push_signed};
use crate::meshes::point_of;
use mb_base::{Hit, Hits, Windings};
use std::alloc::Global;

fn read_windings(alloc: Global, word: &str) -> Result<Vec<i64>, NoRow> {
    let numbers = numbers_of(alloc, word)?;
    widened(alloc, &numbers)
}

fn widened(alloc: Global, numbers: &[i8]) -> Result<Vec<i64>, NoRow> {
    let mut windings = Vec::new(alloc);
    for number in numbers {
        windings.push(i64::from(*number))?;
    }
    Ok(windings)
}

// The hit of a word: edge, face, number, and the point.
fn read_hit(alloc: Global, word: &str) -> Result<Hit, NoRow> {
    let numbers = numbers_of(alloc, word)?;
    if numbers.len() != 6 {
        return Err(NoRow::NoPart);
    }
    Ok(Hit {
        edge: u32::from(numbers[0].unsigned_abs()),
        face: u32::from(numbers[1].unsigned_abs()),
        number: numbers[2],
        at: point_of(numbers[3], numbers[4], numbers[5])?,
    })
}

fn read_hits(alloc: Global, words: &str) -> Result<Vec<Hit>, NoRow> {
    let mut hits = Vec::new(alloc);
    for word in words.split_whitespace() {
        hits.push(read_hit(alloc, word)?)?;
    }
    Ok(hits)
}

fn windings_of(alloc: Global, p: &str, q: &str) -> Result<Windings, NoRow> {
    let w03 = read_windings(alloc, p)?;
    let w30 = read_windings(alloc, q)?;
    Ok(Windings { w03, w30 })
}

fn hits_of(alloc: Global, p: &str, q: &str) -> Result<Hits, NoRow> {
    let x12 = read_hits(alloc, p)?;
    let x21 = read_hits(alloc, q)?;
    Ok(Hits { x12, x21 })
}

/// The numbers of a line: a word of winding numbers for each mesh, then the hits of the first mesh's edges and, after a bar, of the second's, a word each.
pub fn read_numbers(alloc: Global, line: &str) -> Result<(Windings, Hits), NoRow> {
    let (front, back) = line.split_once('|').ok_or(NoRow::NoPart)?;
    let (w03, rest) = front.split_once(' ').ok_or(NoRow::NoPart)?;
    let (w30, edges) = rest.split_once(' ').ok_or(NoRow::NoPart)?;
    let windings = windings_of(alloc, w03, w30)?;
    let hits = hits_of(alloc, edges, back)?;
    Ok((windings, hits))
}

fn push_windings(text: &mut String, windings: &[i64]) -> Result<(), NoRow> {
    for &winding in windings {
        push_signed(text, winding)?;
    }
    Ok(())
}

fn push_hits(text: &mut String, hits: &[Hit]) -> Result<(), NoRow> {
    for hit in hits {
        push_hit(text, hit)?;
    }
    Ok(())
}

fn push_hit(text: &mut String, hit: &Hit) -> Result<(), NoRow> {
    text.push(' ')?;
    push_signed(text, i64::from(hit.edge))?;
    push_signed(text, i64::from(hit.face))?;
    push_signed(text, i64::from(hit.number))?;
    let [x, y, z] = hit.at.at();
    push_signed(text, i64::from(x))?;
    push_signed(text, i64::from(y))?;
    push_signed(text, i64::from(z))
}

/// The line of these numbers, as `read_numbers` reads it.
pub fn write_numbers(alloc: Global, windings: &Windings, hits: &Hits) -> Result<String, NoRow> {
    let mut text = String::new(alloc);
    push_numbers(&mut text, windings, hits)?;
    Ok(text)
}

fn push_numbers(text: &mut String, windings: &Windings, hits: &Hits) -> Result<(), NoRow> {
    push_windings(text, &windings.w03)?;
    text.push(' ')?;
    push_windings(text, &windings.w30)?;
    push_hits(text, &hits.x12)?;
    text.push_str(" |")?;
    push_hits(text, &hits.x21)
}

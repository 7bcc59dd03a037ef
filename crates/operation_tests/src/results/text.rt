// What operations give, as the tables write it.
use mb_base::{Origin, Point};
use mesh_boolean::Outcome;
use std::alloc::Global;
use test_tables::{NoRow, push_digit};

// A number below 61 is a digit, a small letter or a great one; a greater number is Z and then 61 less.
fn push_number(text: &mut String, number: u64) -> Result<(), NoRow> {
    for _ in 0..number / 61 {
        text.push('Z')?;
    }
    push_digit(text, (number % 61) as u32)
}

fn push_list(text: &mut String, numbers: &[u32]) -> Result<(), NoRow> {
    for number in numbers {
        push_number(text, *number as u64)?;
    }
    Ok(())
}

// Adds numbers, and a bar.
fn push_numbers(text: &mut String, numbers: &[u32]) -> Result<(), NoRow> {
    push_list(text, numbers)?;
    Ok(text.push('|')?)
}

fn push_word(text: &mut String, kind: char, numbers: &[u32]) -> Result<(), NoRow> {
    text.push(kind)?;
    push_list(text, numbers)
}

fn push_origin(text: &mut String, origin: &Origin) -> Result<(), NoRow> {
    match origin {
        Origin::PVertex { vertex } => push_word(text, 'p', &[*vertex]),
        Origin::QVertex { vertex } => push_word(text, 'q', &[*vertex]),
        Origin::PEdge { edge, face } => push_word(text, 'e', &[*edge, *face]),
        Origin::QEdge { edge, face } => push_word(text, 'f', &[*edge, *face]),
    }
}

fn push_origins(text: &mut String, origins: &[Origin]) -> Result<(), NoRow> {
    for origin in origins {
        push_origin(text, origin)?;
    }
    Ok(text.push('|')?)
}

// Adds a point, whose coordinates are at least 0.
fn push_point(text: &mut String, point: &Point) -> Result<(), NoRow> {
    for coordinate in point.at() {
        if coordinate < 0 {
            return Err(NoRow::OutsideGrid);
        }
        push_number(text, coordinate as u64)?;
    }
    Ok(())
}

fn push_points(text: &mut String, points: &[Point]) -> Result<(), NoRow> {
    for point in points {
        push_point(text, point)?;
    }
    Ok(text.push('|')?)
}

// Adds what an operation gives.
fn push_outcome(text: &mut String, all: &Outcome) -> Result<(), NoRow> {
    let [p, q] = all.prescribed.kept;
    for number in [
        p,
        q,
        all.prescribed.crossings,
        all.prescribed.halfedges,
        all.forced,
    ] {
        push_number(text, number)?;
    }
    text.push('|')?;
    push_origins(text, &all.prescribed.origins)?;
    push_points(text, &all.prescribed.points)?;
    push_points(text, all.mesh.points())?;
    push_numbers(text, all.mesh.triples().as_flattened())?;
    push_numbers(text, &all.from)?;
    push_numbers(text, &all.source)
}

/// What an operation gives, as the tables write it, with a bar after each part: the vertices kept of each mesh, the crossings,
/// the half-edges and the forced triangles; where each prescribed vertex comes from, p a vertex of the first mesh, q of the
/// second, e an edge of the first with a face, f of the second; the points of these; the points and the triangles of the
/// result; the prescribed vertex of each point; and the source face of each triangle.
pub fn text_of(alloc: Global, all: &Outcome) -> Result<String, NoRow> {
    let mut text = String::new(alloc);
    push_outcome(&mut text, all)?;
    Ok(text)
}

// What numbers prescribe, as the table writes it.
use retained_verts::Prescribed;
use std::alloc::Global;
use test_tables::{NoRow, push_vertex};

/// Adds a word and a blank for each prescribed vertex.
pub fn push_vertices(text: &mut String, all: &Prescribed) -> Result<(), NoRow> {
    for (place, origin) in all.origins.iter().enumerate() {
        let point = all.points.get(place).ok_or(NoRow::NoPart)?;
        push_vertex(text, origin, point)?;
        text.push(' ')?;
    }
    Ok(())
}

/// What is prescribed, as the table writes it.
pub fn text_of(alloc: Global, all: &Prescribed) -> Result<String, NoRow> {
    let [p, q] = all.kept;
    let mut text = format!(in alloc; "{p} {q} {} {} ", all.crossings, all.halfedges)?;
    push_vertices(&mut text, all)?;
    text.pop();
    Ok(text)
}

// The vertices that the numbers prescribe, as the table writes them.
use crate::prescribed::text::push_vertices;
use retained_verts::Prescribed;
use test_tables::NoRow;

/// Adds a word for each prescribed vertex, and a bar.
pub fn push_prescribed(text: &mut String, all: &Prescribed) -> Result<(), NoRow> {
    push_vertices(text, all)?;
    Ok(text.push('|')?)
}

// Inspections of meshes.
mod table;

use mesh_check::Mesh;
use self_cuts::inspect;
use std::alloc::Global;
use std::process::Abort;
use table::ROWS;
use test_tables::read_meshes;

// Whether a line ends with the counts of a mesh.
fn ends_so(rt: &impl Abort, alloc: Global, line: &str, mesh: &Mesh) -> bool {
    let seen = inspect(alloc, mesh).expect(rt, "memory");
    let (flat, doubled, touching, cuts) = (seen.flat, seen.doubled, seen.touching, seen.cuts);
    let counts = format!(in alloc; " {flat} {doubled} {touching} {cuts}").expect(rt, "memory");
    line.ends_with(counts.as_str())
}

// Whether a line ends with the counts of both of its meshes.
fn agrees(rt: &impl Abort, alloc: Global, line: &str) -> bool {
    let (mesh, back) = read_meshes(alloc, line).expect(rt, "two meshes");
    ends_so(rt, alloc, line, &mesh) && ends_so(rt, alloc, line, &back)
}

#[test]
fn meshes_are_inspected(rt: HostRuntime) {
    let mut count = 0u32;
    for line in ROWS.lines() {
        assert!(rt; agrees(&rt, rt.alloc(), line), "{line}");
        count = count.saturating_add(1);
    }
    assert!(rt; count == 124);
}

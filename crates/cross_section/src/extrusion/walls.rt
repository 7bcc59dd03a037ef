// The triangles of an extrusion: bottom, top and walls.
ghost use Rattle.std.specs.Prelude.{◌≡◌, ◌<◌, ◌≤◌, ◌+◌, ◌++◌, OnOk, length, map};
ghost use Rattle.std.specs.List.{All, flat_map};
ghost use Rattle.chain_laws.specs.Triples.{opposite_triple, renamed_triple};
ghost use Rattle.mesh_terms.specs.Meshes.{IsBelow, triples_of};
ghost use Rattle.outline_terms.specs.Extrusion.{walls};
ghost use Rattle.outline_terms.specs.Outlines.{IsBetween, most_vertices};

use mb_base::NoMemory;

/// Adds triangles, turned over.
pub fn push_bottom(triples: &mut Vec<[u32; 3]>, fill: &[[u32; 3]]) -> Result<(), NoMemory>
    ensures { OnOk result (triples_of triples.new.items ≡ triples_of triples.old.items ++ map opposite_triple (triples_of fill.now)) }
{
    for [a, b, c] in fill {
        triples.push([*a, *c, *b])?;
    }
    Ok(())
}

/// Adds triangles, on the vertices that come so many later.
pub fn push_top(triples: &mut Vec<[u32; 3]>, fill: &[[u32; 3]], count: u32) -> Result<(), NoMemory>
    requires below { All (IsBelow count) (triples_of fill.now) }
    requires few { count ≤ most_vertices }
    ensures { OnOk result (triples_of triples.new.items ≡ triples_of triples.old.items ++ map (renamed_triple (λ v. v + count)) (triples_of fill.now)) }
{
    for [a, b, c] in fill {
        triples.push([*a + count, *b + count, *c + count])?;
    }
    Ok(())
}

/// Adds the walls over edges.
pub fn push_walls(
    triples: &mut Vec<[u32; 3]>,
    edges: &[(u32, u32)],
    count: u32,
) -> Result<(), NoMemory>
    requires between { All (IsBetween count) edges.now }
    requires few { count ≤ most_vertices }
    ensures { OnOk result (triples_of triples.new.items ≡ triples_of triples.old.items ++ flat_map (walls count) edges.now) }
{
    for (from, to) in edges {
        push_wall(triples, *from, *to, count)?;
    }
    Ok(())
}

// Adds the wall over an edge.
fn push_wall(triples: &mut Vec<[u32; 3]>, from: u32, to: u32, count: u32) -> Result<(), NoMemory>
    requires from { from < count }
    requires to { to < count }
    requires few { count ≤ most_vertices }
    ensures { OnOk result (triples_of triples.new.items ≡ triples_of triples.old.items ++ walls count (from, to)) }
{
    triples.push([from, to, to + count])?;
    triples.push([from, to + count, from + count])?;
    Ok(())
}

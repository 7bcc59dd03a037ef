// Outcomes that are changed in one of some thirty ways, each named by a word and numbers.
use mb_base::{Point, Soup};
use mesh_boolean::Outcome;
use mesh_check::{Mesh, MeshFault};
use retained_verts::Prescribed;
use std::alloc::Global;
use std::process::Abort;
use std::str::SplitWhitespace;

// The lists of a mesh, with the prescribed vertex of each point and the source face of each triangle.
#[derive(Drop)]
struct Lists {
    points: Vec<Point>,
    triples: Vec<[u32; 3]>,
    from: Vec<u32>,
    source: Vec<u32>,
}

// The next number.
fn number(rt: &impl Abort, words: &mut SplitWhitespace) -> u32 {
    let word = words.next().expect(rt, "a number");
    word.parse::<u32>().ok().expect(rt, "a number")
}

// The next two numbers.
fn pair(rt: &impl Abort, words: &mut SplitWhitespace) -> (u32, u32) {
    let one = number(rt, words);
    (one, number(rt, words))
}

// The value at a place.
fn at<T: Copy>(rt: &impl Abort, values: &[T], place: u32) -> T {
    *values.get(place as usize).expect(rt, "a place")
}

// Puts a value at a place.
fn put<T: Copy>(rt: &impl Abort, values: &mut [T], place: u32, value: T) {
    assert!(rt; (place as usize) < values.len(), "past the end");
    values[place as usize] = value;
}

// Exchanges the values at two places.
fn exchange<T: Copy>(rt: &impl Abort, values: &mut [T], one: u32, other: u32) {
    let (one, other) = (one as usize, other as usize);
    assert!(rt; one < values.len() && other < values.len(), "past the end");
    values.swap(one, other);
}

// A point moved by a step of the grid along the first axis or the last.
fn moved(rt: &impl Abort, point: Point, is_first: bool) -> Point {
    let [x, y, z] = point.at();
    let made = if is_first {
        Point::of(x.wrapping_add(1), y, z)
    } else {
        Point::of(x, y, z.wrapping_add(1))
    };
    made.expect(rt, "a point of the grid")
}

fn move_one(rt: &impl Abort, points: &mut [Point], place: u32, is_first: bool) {
    let point = moved(rt, at(rt, points, place), is_first);
    put(rt, points, place, point);
}

// A vertex where two are exchanged.
fn exchanged(vertex: u32, one: u32, other: u32) -> u32 {
    if vertex == one {
        other
    } else if vertex == other {
        one
    } else {
        vertex
    }
}

// Exchanges two vertices in the triangles.
fn exchange_vertices(triples: &mut [[u32; 3]], one: u32, other: u32) {
    for triple in triples.iter_mut() {
        let [a, b, c] = *triple;
        *triple = [
            exchanged(a, one, other),
            exchanged(b, one, other),
            exchanged(c, one, other),
        ];
    }
}

// A vertex where one is left out, in whose place another stays.
fn joined(vertex: u32, kept: u32, gone: u32) -> u32 {
    if vertex == gone {
        kept
    } else if vertex > gone {
        vertex - 1
    } else {
        vertex
    }
}

// Puts one vertex in place of another, which is left out, into the triangles.
fn join_vertices(triples: &mut [[u32; 3]], kept: u32, gone: u32) {
    for triple in triples.iter_mut() {
        let [a, b, c] = *triple;
        *triple = [
            joined(a, kept, gone),
            joined(b, kept, gone),
            joined(c, kept, gone),
        ];
    }
}

// Leaves out the value at a place.
fn remove<T: Copy>(rt: &impl Abort, list: &mut Vec<T>, place: u32) {
    assert!(rt; (place as usize) < list.len(), "past the end");
    list.remove(place as usize);
}

// Makes one vertex of two: that with the lesser number stays.
fn join(rt: &impl Abort, lists: &mut Lists, one: u32, other: u32) {
    let (kept, gone) = (one.min(other), one.max(other));
    join_vertices(&mut lists.triples, kept, gone);
    remove(rt, &mut lists.points, gone);
    remove(rt, &mut lists.from, gone);
}

// A triangle from its second vertex on, or turned over.
fn turn(rt: &impl Abort, triples: &mut [[u32; 3]], place: u32, over: bool) {
    let [a, b, c] = at(rt, triples, place);
    put(rt, triples, place, if over { [a, c, b] } else { [b, c, a] });
}

// The triangle from its first, second or third vertex on.
fn from_corner(triple: [u32; 3], corner: usize) -> [u32; 3] {
    let [a, b, c] = triple;
    match corner {
        0 => [a, b, c],
        1 => [b, c, a],
        _ => [c, a, b],
    }
}

// The ends of an edge that two triangles have in common, then the third vertex of each.
fn across(first: [u32; 3], second: [u32; 3]) -> Option<[u32; 4]> {
    for i in 0..3usize {
        for j in 0..3usize {
            let ([a, b, c], [end, start, d]) = (from_corner(first, i), from_corner(second, j));
            if start == a && end == b {
                return Some([a, b, c, d]);
            }
        }
    }
    None
}

// Puts the other diagonal into two triangles with a common edge.
fn exchange_diagonal(rt: &impl Abort, triples: &mut [[u32; 3]], one: u32, other: u32) {
    let edge = across(at(rt, triples, one), at(rt, triples, other));
    let [a, b, c, d] = edge.expect(rt, "a common edge");
    put(rt, triples, one, [c, a, d]);
    put(rt, triples, other, [d, b, c]);
}

// Leaves out a triangle.
fn leave_out(rt: &impl Abort, lists: &mut Lists, place: u32) {
    remove(rt, &mut lists.triples, place);
    remove(rt, &mut lists.source, place);
}

// Adds values to a list.
fn add<T: Copy>(rt: &impl Abort, list: &mut Vec<T>, values: &[T]) {
    list.extend_from_slice(values).expect(rt, "memory");
}

// Adds a triangle once more and turned over.
fn double(rt: &impl Abort, lists: &mut Lists, place: u32) {
    let [a, b, c] = at(rt, &lists.triples, place);
    let source = at(rt, &lists.source, place);
    add(rt, &mut lists.triples, &[[a, b, c], [a, c, b]]);
    add(rt, &mut lists.source, &[source; 2]);
}

// Adds all triangles once more, of points that come later by so many.
fn repeat_triples(rt: &impl Abort, alloc: Global, triples: &mut Vec<[u32; 3]>, more: u32) {
    let mut copy = triples.to_vec(alloc).expect(rt, "memory");
    for triple in copy.iter_mut() {
        let [a, b, c] = *triple;
        *triple = [
            a.wrapping_add(more),
            b.wrapping_add(more),
            c.wrapping_add(more),
        ];
    }
    add(rt, triples, &copy);
}

// Adds all of a list once more.
fn repeat_list<T: Copy>(rt: &impl Abort, list: &mut Vec<T>) {
    list.extend_from_within(..).expect(rt, "memory");
}

// Adds all of it once more.
fn repeat(rt: &impl Abort, alloc: Global, lists: &mut Lists) {
    let more = u32::try_from(lists.points.len()).expect(rt, "few vertices");
    repeat_triples(rt, alloc, &mut lists.triples, more);
    repeat_list(rt, &mut lists.source);
    repeat_list(rt, &mut lists.points);
    repeat_list(rt, &mut lists.from);
}

// Repeats the last value of a list.
fn repeat_last<T: Copy>(rt: &impl Abort, list: &mut Vec<T>) {
    let last = *list.last().expect(rt, "a vertex");
    list.push(last).expect(rt, "memory");
}

// Changes the list of prescribed vertices, if the word says so.
fn change_vertices(
    rt: &impl Abort,
    prescribed: &mut Prescribed,
    word: &str,
    words: &mut SplitWhitespace,
) {
    if word == "origins" {
        let (one, other) = pair(rt, words);
        return exchange(rt, &mut prescribed.origins, one, other);
    }
    if word == "places" {
        let (one, other) = pair(rt, words);
        return exchange(rt, &mut prescribed.points, one, other);
    }
    if word == "place" {
        return move_one(rt, &mut prescribed.points, number(rt, words), true);
    }
    if word == "less" {
        prescribed.origins.pop();
        prescribed.points.pop();
        return;
    }
    if word == "more" {
        repeat_last(rt, &mut prescribed.origins);
        repeat_last(rt, &mut prescribed.points);
    }
}

// Two counts, the first or the second of them by one more.
fn raised(counts: [u64; 2], which: u32) -> [u64; 2] {
    let [one, other] = counts;
    if which == 0 {
        [one.wrapping_add(1), other]
    } else {
        [one, other.wrapping_add(1)]
    }
}

// Changes the counts of prescribed vertices, if the word says so.
fn change_counts(
    rt: &impl Abort,
    prescribed: &mut Prescribed,
    word: &str,
    words: &mut SplitWhitespace,
) {
    if word == "kept" {
        prescribed.kept = raised(prescribed.kept, number(rt, words));
        return;
    }
    if word == "crossings" {
        prescribed.crossings = prescribed.crossings.wrapping_add(1);
        return;
    }
    if word == "halfedges" {
        prescribed.halfedges = prescribed.halfedges.wrapping_add(1);
    }
}

// Changes a list of where points or triangles come from, if the word says so.
fn change_list(
    rt: &impl Abort,
    list: &mut Vec<u32>,
    names: [&str; 4],
    word: &str,
    words: &mut SplitWhitespace,
) {
    let [one, two, less, more] = names;
    if word == one {
        let (place, value) = pair(rt, words);
        return put(rt, list, place, value);
    }
    if word == two {
        let (place, other) = pair(rt, words);
        return exchange(rt, list, place, other);
    }
    if word == less {
        list.pop();
        return;
    }
    if word == more {
        list.push(number(rt, words)).expect(rt, "memory");
    }
}

// Changes one triangle, or the diagonal of two, if the word says so.
fn change_triangle(rt: &impl Abort, lists: &mut Lists, word: &str, words: &mut SplitWhitespace) {
    if word == "turn" {
        return turn(rt, &mut lists.triples, number(rt, words), false);
    }
    if word == "flip" {
        return turn(rt, &mut lists.triples, number(rt, words), true);
    }
    if word == "diagonal" {
        let (one, other) = pair(rt, words);
        return exchange_diagonal(rt, &mut lists.triples, one, other);
    }
    if word == "drop" {
        return leave_out(rt, lists, number(rt, words));
    }
    if word == "double" {
        double(rt, lists, number(rt, words));
    }
}

// Exchanges two triangles, with their source faces.
fn exchange_triangles(rt: &impl Abort, lists: &mut Lists, one: u32, other: u32) {
    exchange(rt, &mut lists.triples, one, other);
    exchange(rt, &mut lists.source, one, other);
}

// Changes the order of triangles, or all of them, if the word says so.
fn change_order(
    rt: &impl Abort,
    alloc: Global,
    lists: &mut Lists,
    word: &str,
    words: &mut SplitWhitespace,
) {
    if word == "exchange" {
        let (one, other) = pair(rt, words);
        return exchange_triangles(rt, lists, one, other);
    }
    if word == "triples" {
        let (one, other) = pair(rt, words);
        return exchange(rt, &mut lists.triples, one, other);
    }
    if word == "whole_back" {
        lists.triples.reverse();
        lists.source.reverse();
        return;
    }
    if word == "twice" {
        repeat(rt, alloc, lists);
    }
}

// Exchanges two vertices, with their points and where these come from.
fn exchange_points(rt: &impl Abort, lists: &mut Lists, one: u32, other: u32) {
    exchange_vertices(&mut lists.triples, one, other);
    exchange(rt, &mut lists.points, one, other);
    exchange(rt, &mut lists.from, one, other);
}

// Changes points and vertices, if the word says so.
fn change_points(rt: &impl Abort, lists: &mut Lists, word: &str, words: &mut SplitWhitespace) {
    if word == "step" {
        return move_one(rt, &mut lists.points, number(rt, words), false);
    }
    if word == "rename" {
        let (one, other) = pair(rt, words);
        return exchange_points(rt, lists, one, other);
    }
    if word == "vertices" {
        let (one, other) = pair(rt, words);
        let _ = (at(rt, &lists.points, one), at(rt, &lists.points, other));
        return exchange_vertices(&mut lists.triples, one, other);
    }
    if word == "join" {
        let (one, other) = pair(rt, words);
        join(rt, lists, one, other);
    }
}

// The lists of an outcome, with the points and triangles of this mesh.
fn lists_of(rt: &impl Abort, alloc: Global, mesh: &Mesh, outcome: &Outcome) -> Lists {
    Lists {
        points: mesh.points().to_vec(alloc).expect(rt, "memory"),
        triples: mesh.triples().to_vec(alloc).expect(rt, "memory"),
        from: outcome.from.to_vec(alloc).expect(rt, "memory"),
        source: outcome.source.to_vec(alloc).expect(rt, "memory"),
    }
}

// Changes those lists, if the word says so.
fn change_lists(
    rt: &impl Abort,
    alloc: Global,
    lists: &mut Lists,
    word: &str,
    words: &mut SplitWhitespace,
) {
    let names = ["from", "froms", "from_less", "from_more"];
    change_list(rt, &mut lists.from, names, word, words);
    let names = ["source", "sources", "source_less", "source_more"];
    change_list(rt, &mut lists.source, names, word, words);
    change_triangle(rt, lists, word, words);
    change_order(rt, alloc, lists, word, words);
    change_points(rt, lists, word, words);
}

// The mesh of these points and triangles, if it is one.
fn mesh_of(
    rt: &impl Abort,
    alloc: Global,
    points: Vec<Point>,
    triples: Vec<[u32; 3]>,
) -> Option<Mesh> {
    if !Soup::fits(&points, &triples) {
        return None;
    }
    match Mesh::check(alloc, Soup::of(points, triples, 0)) {
        Ok(mesh) => Some(mesh),
        Err(MeshFault::OpenEdge { .. }) => None,
        Err(MeshFault::NoMemory) => panic!(rt; "no memory"),
    }
}

// An outcome of these parts, if its points and triangles are a mesh.
fn outcome_of(
    rt: &impl Abort,
    alloc: Global,
    lists: Lists,
    prescribed: Prescribed,
    forced: u64,
) -> Option<Outcome> {
    let Lists {
        points,
        triples,
        from,
        source,
    } = lists;
    let mesh = mesh_of(rt, alloc, points, triples)?;
    Some(Outcome {
        mesh,
        prescribed,
        from,
        source,
        forced,
    })
}

/// An outcome changed in the way of these words; none where that has no closed mesh.
pub fn changed(
    rt: &impl Abort,
    alloc: Global,
    outcome: Outcome,
    first: &Mesh,
    words: &mut SplitWhitespace,
) -> Option<Outcome> {
    let word = words.next().expect(rt, "a word");
    let mesh = if word == "first" {
        first
    } else {
        &outcome.mesh
    };
    let mut lists = lists_of(rt, alloc, mesh, &outcome);
    change_lists(rt, alloc, &mut lists, word, words);
    let Outcome {
        mut prescribed,
        forced,
        ..
    } = outcome;
    change_vertices(rt, &mut prescribed, word, words);
    change_counts(rt, &mut prescribed, word, words);
    let more = if word == "forced" { 1 } else { 0 };
    outcome_of(rt, alloc, lists, prescribed, forced.wrapping_add(more))
}

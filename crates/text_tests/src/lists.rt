// Lists of words, points and bytes.
use mb_base::{ArgList, NoMemory, Point};
use std::alloc::Global;

// The words as a list.
pub fn listed(alloc: Global, words: &[&str]) -> Result<ArgList, NoMemory> {
    let mut list = ArgList::start(alloc);
    for word in words {
        list.push(word)?;
    }
    Ok(list)
}

// The point at these coordinates, where the grid has it.
pub fn point_at(at: [i32; 3]) -> Option<Point> {
    let [x, y, z] = at;
    Point::of(x, y, z)
}

// The points at these places, without those beyond the grid.
pub fn points_at(alloc: Global, places: &[[i32; 3]]) -> Result<Vec<Point>, NoMemory> {
    let mut points = Vec::new(alloc);
    for at in places {
        if let Some(point) = point_at(*at) {
            points.push(point)?;
        }
    }
    Ok(points)
}

// Whether the points are at these places.
pub fn stand_at(points: &[Point], places: &[[i32; 3]]) -> bool {
    let mut all = points.len() == places.len();
    for (point, at) in points.iter().zip(places) {
        if point.at() != *at {
            all = false;
        }
    }
    all
}

// The parts of a text, one after the other.
pub fn joined(
    alloc: Global,
    front: &[u8],
    middle: &[u8],
    after: &[u8],
) -> Result<Vec<u8>, NoMemory> {
    let mut bytes = front.to_vec(alloc)?;
    bytes.extend_from_slice(middle)?;
    bytes.extend_from_slice(after)?;
    Ok(bytes)
}

//! The numbers of the boxes of a tree that are near an area, ascending.

ghost use Rattle.std.specs.Prelude.{◌≡◌, ◌↔◌, ◌≤◌, IfOk, IsTrue, OnOk, length};
ghost use Rattle.box_tree.specs.Touching.{touching_numbers};

use crate::Tree;
use mb_base::{Box3, NoMemory};

/// Makes a list of the numbers of the boxes that touch the area, ascending. What stood in the list before goes, and its memory
/// is used again.
pub fn find_near(near: &mut Vec<u32>, tree: &Tree, area: Box3) -> Result<(), NoMemory>
    ensures { OnOk result (near.new.items ≡ touching_numbers tree.now area) }
{
    near.clear();
    for number in tree.touching(area) {
        near.push(number)?;
    }
    near.sort_unstable();
    Ok(())
}

/// Tells whether at most so many boxes touch the area, and makes the same list where that is so. Where there are more the list has
/// some of them.
pub fn find_few(near: &mut Vec<u32>, tree: &Tree, most: usize, area: Box3) -> Result<bool, NoMemory>
    ensures few { IfOk result (λ few. IsTrue few ↔ length (touching_numbers tree.now area) ≤ most) }
    ensures list { IfOk result (λ few. IsTrue few → near.new.items ≡ touching_numbers tree.now area) }
{
    near.clear();
    for number in tree.touching(area) {
        if near.len() == most {
            return Ok(false);
        }
        near.push(number)?;
    }
    near.sort_unstable();
    Ok(true)
}

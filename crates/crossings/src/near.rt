// Faces that are near an area, with their boxes.
ghost use Rattle.std.specs.Prelude.{◌≡◌, ◌<◌, OnOk, length, map};
ghost use Rattle.std.specs.List.{All};
ghost use Rattle.mb_base.specs.Boxes.{box_of};
ghost use Rattle.side_terms.specs.Sides.{face_at};

use lean::Side;
use mb_base::{Box3, NoMemory, box_of};

/// Numbers of faces, and the boxes of these.
#[derive(Drop)]
pub struct Near {
    pub faces: Vec<u32>,
    pub boxes: Vec<Box3>,
}

/// Makes a list of the boxes of faces. What stood in the list before goes, and its memory is used again.
pub fn find_boxes(boxes: &mut Vec<Box3>, near: &[u32], faces: &Side) -> Result<(), NoMemory>
    requires { All (λ f. f < length faces.now.triples) near.now }
    ensures { OnOk result (boxes.new.items ≡ map (λ f. box_of (face_at faces.now f)) near.now) }
{
    boxes.clear();
    for face in near {
        boxes.push(box_of(&faces.face(*face)))?;
    }
    Ok(())
}

// The steps of a script.
ghost use Rattle.std.specs.Prelude.{◌≡◌, [], map, option_copied};
ghost use Rattle.play_terms.specs.Sound.{AreSound};
ghost use Rattle.play_terms.specs.Steps.{new_kind, new_name};
ghost use Rattle.script_lang.specs.Steps.{line_of, step_of};

use crate::corners::Corners2;
use mb_base::{Op, Point};
use play_terms::HeldKind;
use std::marker::Model;

/// A word of a script, which is a text.
#[derive(Drop)]
pub struct Word<'a> {
    text: &'a str,
}

impl<'a> Model for Word<'a> {
    ghost use Rattle.std.specs.Prelude.{ℕ, List};

    ghost Value = { List ℕ };

    ghost view = { λ w. w.text.now };
}

impl<'a> Word<'a> {
    /// This text as a word.
    pub fn of(text: &'a str) -> Word<'a>
        ensures { result ≡ text.now }
    {
        Word { text }
    }

    /// The text of the word.
    pub fn as_str(&self) -> &'a str
        ensures { result.now ≡ self.now }
    {
        self.text
    }
}

/// A step of a script.
#[derive(Drop)]
pub enum Step<'a> {
    /// Gives a name the mesh of a file.
    Load {
        name: Word<'a>,
        file: Word<'a>,
    },
    /// Writes the mesh of a name to a file.
    Save {
        name: Word<'a>,
        file: Word<'a>,
    },
    /// Measures the mesh of a name.
    Measure {
        name: Word<'a>,
    },
    /// Inspects the mesh of a name.
    Inspect {
        name: Word<'a>,
    },
    /// Gives a name what an operation makes of two meshes, of which `left` is the first.
    Combine {
        op: Op,
        name: Word<'a>,
        left: Word<'a>,
        right: Word<'a>,
    },
    /// Gives a name the box between two corners.
    MakeBox {
        name: Word<'a>,
        low: Point,
        high: Point,
    },
    /// Gives a name a tetrahedron with a right angle at a corner.
    MakeTetra {
        name: Word<'a>,
        at: Point,
        size: i32,
    },
    /// Gives a name a prism with a right angle at a corner.
    MakePrism {
        name: Word<'a>,
        at: Point,
        size: i32,
        height: i32,
    },
    /// Gives a name `n` boxes along each axis.
    MakeLattice {
        name: Word<'a>,
        n: u32,
        seed: u32,
    },
    /// Gives a name the mesh of another with `by` added to each point.
    Shift {
        name: Word<'a>,
        source: Word<'a>,
        by: [i32; 3],
    },
    /// Gives a name the mesh of another with each coordinate multiplied.
    Scale {
        name: Word<'a>,
        source: Word<'a>,
        factor: u32,
    },
    /// Gives a name the mirror image of another's mesh on an axis, 0 to 2 for x to z.
    Mirror {
        name: Word<'a>,
        source: Word<'a>,
        axis: u8,
    },
    /// Gives a name the mesh of another after a quarter turn about an axis, 0 to 2 for x to z.
    Turn {
        name: Word<'a>,
        source: Word<'a>,
        axis: u8,
    },
    /// Gives a name the tidied mesh of another.
    Tidy {
        name: Word<'a>,
        source: Word<'a>,
    },
    /// Gives a name the remeshed mesh of another.
    Remesh {
        name: Word<'a>,
        source: Word<'a>,
    },
    /// Gives a name the outline of one loop through these places of the plane.
    Polygon {
        name: Word<'a>,
        ring: Corners2,
    },
    /// Gives a name what an operation makes of two outlines, of which `left` is the first.
    Combine2 {
        op: Op,
        name: Word<'a>,
        left: Word<'a>,
        right: Word<'a>,
    },
    /// Gives a name the solid between an outline at a low height and at a high one.
    Extrude {
        name: Word<'a>,
        source: Word<'a>,
        low: i32,
        high: i32,
    },
    /// From here on operations are taken under exact kernels.
    Exact,
}

impl<'a> Step<'a> {
    /// The name that the step gives a mesh or an outline, if it gives one.
    pub fn new_name(&self) -> Option<&'a str>
        ensures { option_copied result ≡ new_name (step_of self.now) }
    {
        match self {
            Step::Save { .. } | Step::Measure { .. } | Step::Inspect { .. } | Step::Exact => None,
            Step::Load { name, .. }
            | Step::Combine { name, .. }
            | Step::MakeBox { name, .. }
            | Step::MakeTetra { name, .. }
            | Step::MakePrism { name, .. }
            | Step::MakeLattice { name, .. }
            | Step::Shift { name, .. }
            | Step::Scale { name, .. }
            | Step::Mirror { name, .. }
            | Step::Turn { name, .. }
            | Step::Tidy { name, .. }
            | Step::Remesh { name, .. }
            | Step::Polygon { name, .. }
            | Step::Combine2 { name, .. }
            | Step::Extrude { name, .. } => Some(name.as_str()),
        }
    }

    /// The kind of what it gets.
    pub fn new_kind(&self) -> HeldKind
        ensures { result ≡ new_kind (step_of self.now) }
    {
        match self {
            Step::Polygon { .. } | Step::Combine2 { .. } => HeldKind::Outline,
            _ => HeldKind::Mesh,
        }
    }
}

/// A step with the number of its line, from 1.
#[derive(Drop)]
pub struct Line<'a> {
    pub line: u64,
    pub step: Step<'a>,
}

/// The steps of a script in their order.
#[derive(Drop)]
pub struct Script<'a> {
    lines: Vec<Line<'a>>,
}

impl<'a> Model for Script<'a> {
    ghost use Rattle.std.specs.Prelude.{[], List, map};
    ghost use Rattle.play_terms.specs.Steps.{Line as TheLine};
    ghost use Rattle.play_terms.specs.Sound.{AreSound};
    ghost use Rattle.script_lang.specs.Steps.{line_of};

    ghost Value = { List TheLine };

    ghost view = { λ s. map line_of s.lines.items };

    ghost invariant = { λ s. AreSound [] (map line_of s.lines.items) };
}

impl<'a> Script<'a> {
    /// The script of these lines.
    pub(crate) fn of(lines: Vec<Line<'a>>) -> Script<'a>
        requires { AreSound [] (map line_of lines.items) }
        ensures { result ≡ map line_of lines.entry.items }
    {
        Script { lines }
    }

    /// The steps, each with the number of its line.
    pub fn lines(&self) -> &[Line<'a>]
        ensures lines { map line_of result.now ≡ self.now }
        ensures sound { AreSound [] self.now }
    {
        &self.lines
    }
}

// What the names of a script hold.
ghost use Rattle.std.specs.Prelude.{◌≡◌, [], IsSome, OnOk, OnErr};
ghost use Rattle.std.specs.Option.{option_map};
ghost use Rattle.script_runs.specs.Names.{named_in};
ghost use Rattle.script_runs.specs.Held.{held_of};
ghost use Rattle.play_terms.specs.Plays.{mesh_at, mesh_held, outline_at, outline_held, with_held, with_name, with_outline};

use indexmap::IndexMap;
use mb_base::NoMemory;
use mesh_check::Mesh;
use outlines::Outline;
use std::alloc::Global;
use std::marker::Model;

/// What a name holds.
#[derive(Drop)]
pub enum Held {
    Mesh(Mesh),
    Outline(Outline),
}

/// What names hold, which the names own. A clause sees a list of names, each with what it holds.
#[derive(Drop)]
pub struct HeldNames<'a> {
    held: IndexMap<&'a str, Held>,
}

impl<'a> Model for HeldNames<'a> {
    ghost use Rattle.std.specs.Prelude.{ℕ, List, map};
    ghost use Rattle.play_terms.specs.Plays.{Held as TheHeld};
    ghost use Rattle.script_runs.specs.Held.{held_of};

    ghost Value = { List (List ℕ × TheHeld) };

    ghost view = { λ n. map (λ e. (e.0.now, held_of e.1)) n.held.entries };
}

impl<'a> HeldNames<'a> {
    /// No name.
    pub fn none(alloc: Global) -> HeldNames<'a>
        ensures { result ≡ [] }
    {
        HeldNames {
            held: IndexMap::new(alloc),
        }
    }

    // The mesh of a name. None where it has none.
    fn mesh(&self, name: &'a str) -> Option<&Mesh>
        ensures { option_map (λ mesh. mesh.now) result ≡ mesh_held (named_in self.now name.now) }
    {
        match self.held.get(&name) {
            Some(Held::Mesh(mesh)) => Some(mesh),
            Some(Held::Outline(_)) => None,
            None => None,
        }
    }

    // The outline of a name. None where it has none.
    fn outline(&self, name: &'a str) -> Option<&Outline>
        ensures { option_map (λ outline. outline.now) result ≡ outline_held (named_in self.now name.now) }
    {
        match self.held.get(&name) {
            Some(Held::Outline(outline)) => Some(outline),
            Some(Held::Mesh(_)) => None,
            None => None,
        }
    }

    /// The mesh of a name that has one.
    pub fn mesh_of(&self, name: &'a str) -> &Mesh
        requires { IsSome (mesh_held (named_in self.now name.now)) }
        ensures { result.now ≡ mesh_at (named_in self.now) name.now }
    {
        let Some(mesh) = self.mesh(name) else {
            unreachable!();
        };
        mesh
    }

    /// The outline of a name that has one.
    pub fn outline_of(&self, name: &'a str) -> &Outline
        requires { IsSome (outline_held (named_in self.now name.now)) }
        ensures { result.now ≡ outline_at (named_in self.now) name.now }
    {
        let Some(outline) = self.outline(name) else {
            unreachable!();
        };
        outline
    }

    /// Gives a name a mesh. What it had before is freed.
    pub fn define(&mut self, name: &'a str, mesh: Mesh) -> Result<(), NoMemory>
        ensures named { OnOk result (named_in self.new ≡ with_name name.now mesh (named_in self.old)) }
        ensures kept { OnErr result (self.new ≡ self.old) }
    {
        self.hold(name, Held::Mesh(mesh))
    }

    /// Gives a name an outline. What it had before is freed.
    pub fn define_outline(&mut self, name: &'a str, outline: Outline) -> Result<(), NoMemory>
        ensures named { OnOk result (named_in self.new ≡ with_outline name.now outline (named_in self.old)) }
        ensures kept { OnErr result (self.new ≡ self.old) }
    {
        self.hold(name, Held::Outline(outline))
    }

    // Gives a name something to hold.
    fn hold(&mut self, name: &'a str, held: Held) -> Result<(), NoMemory>
        ensures named { OnOk result (named_in self.new ≡ with_held name.now (held_of held) (named_in self.old)) }
        ensures kept { OnErr result (self.new ≡ self.old) }
    {
        self.held.insert(name, held)?;
        Ok(())
    }
}

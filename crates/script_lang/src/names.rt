// The names of a script, and whether each has a mesh or an outline.
ghost use Rattle.std.specs.Prelude.{◌≡◌, [], ℕ, List, OnOk, OnErr, IfErr};
ghost use Rattle.play_terms.specs.Steps.{gives, is_kind, is_same, or_before};
ghost use Rattle.script_lang.specs.Names.{beside, with_more};
ghost use Rattle.script_lang.specs.Steps.{step_of};

use crate::fault::ScriptFault;
use crate::steps::Step;
use indexmap::IndexMap;
use play_terms::HeldKind;
use std::alloc::Global;
use std::marker::Model;

/// Names, each once, with the kind of what it holds.
#[derive(Drop)]
pub struct KnownNames<'a> {
    kinds: IndexMap<&'a str, HeldKind>,
}

impl<'a> Model for KnownNames<'a> {
    ghost use Rattle.std.specs.Prelude.{ℕ, List, map};
    ghost use Rattle.play_terms.specs.declared.held.HeldKind.{HeldKind};

    ghost Value = { List (List ℕ × HeldKind) };

    ghost view = { λ n. map (λ e. (e.0.now, e.1)) n.kinds.entries };
}

impl<'a> KnownNames<'a> {
    /// No names.
    pub fn new(alloc: Global) -> KnownNames<'a>
        ensures { result ≡ [] }
    {
        KnownNames {
            kinds: IndexMap::new(alloc),
        }
    }

    /// Whether a text is a name that holds something of this kind. The time is constant.
    pub fn has(&self, kind: HeldKind, text: &'a str) -> bool
        ensures { result ≡ is_kind kind (beside self.now text.now) }
    {
        match self.kinds.get(&text) {
            Some(held) => is_same(kind, *held),
            None => false,
        }
    }

    // Adds a name, or gives one that is there this kind.
    fn add(&mut self, name: &'a str, kind: HeldKind) -> Result<(), ScriptFault>
        ensures added { OnOk result (beside self.new ≡ with_more name.now kind (beside self.old)) }
        ensures same { OnErr result (self.new ≡ self.old) }
        ensures fault { IfErr result (λ e. e ≡ ScriptFault.NoMemory) }
    {
        self.kinds.insert(name, kind)?;
        Ok(())
    }

    /// Adds the name that a step gives a mesh or an outline, if it gives one.
    pub fn add_new(&mut self, step: &Step<'a>) -> Result<(), ScriptFault>
        ensures added { OnOk result ((w : List ℕ) → beside self.new w ≡ or_before (gives w (step_of step.now)) (beside self.old w)) }
        ensures same { OnErr result (self.new ≡ self.old) }
        ensures fault { IfErr result (λ e. e ≡ ScriptFault.NoMemory) }
    {
        match step.new_name() {
            Some(name) => self.add(name, step.new_kind()),
            None => Ok(()),
        }
    }
}

// Whether two kinds are the same.
fn is_same(one: HeldKind, other: HeldKind) -> bool
    ensures { result ≡ is_same one other }
{
    match (one, other) {
        (HeldKind::Mesh, HeldKind::Mesh) | (HeldKind::Outline, HeldKind::Outline) => true,
        _ => false,
    }
}

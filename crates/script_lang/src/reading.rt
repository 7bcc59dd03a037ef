// The lines of a script, read one after the other.
ghost use Rattle.std.specs.Prelude.{ℕ, ◌≡◌, ◌≤◌, ◌++◌, ◌∷◌, [], map, None, Some, Ok, Err, IfOk, OnOk, IfErr};
ghost use Rattle.play_terms.specs.Operands.{old_name_fault};
ghost use Rattle.play_terms.specs.ScriptCommands.{combine, combine2, exact, extrude, inspect, load, measure, remesh, save, tidy};
ghost use Rattle.play_terms.specs.Scripts.{command_step, numbered_words, script_line, script_lines, step_by};
ghost use Rattle.play_terms.specs.Sound.{AreSound};
ghost use Rattle.play_terms.specs.Steps.{given_kind, gives};
ghost use Rattle.script_lang.specs.Faults.{IsFaultOf};
ghost use Rattle.text_terms.specs.FirstFault.{on_line};
ghost use Rattle.script_lang.specs.Steps.{command_of, line_of, step_of};

use crate::commands::CommandWord;
use crate::fault::{BAD_WORD, NAME_NOT_DEFINED, ScriptFault, WRONG_COUNT, bad};
use crate::names::KnownNames;
use crate::operands::{file_text, name_text, number, taken};
use crate::polygons::polygon_step;
use crate::solids::solid_step;
use crate::steps::{Line, Script, Step, Word};
use crate::words::Words;
use grid_number::{Lines, without_mark};
use mb_base::Op;
use play_terms::HeldKind;
use std::alloc::Global;
use std::marker::Model;

/// The lines so far, and the names that they give meshes or outlines.
#[derive(Drop)]
pub struct Reading<'a> {
    lines: Vec<Line<'a>>,
    names: KnownNames<'a>,
}

impl<'a> Model for Reading<'a> {
    ghost use Rattle.std.specs.Prelude.{◌≡◌, ℕ, List, map};
    ghost use Rattle.play_terms.specs.Steps.{Line as TheLine, given_kind};
    ghost use Rattle.script_lang.specs.Names.{beside};
    ghost use Rattle.script_lang.specs.Steps.{line_of};

    ghost Value = { List TheLine };

    ghost view = { λ r. map line_of r.lines.items };

    ghost invariant = { λ r. (w : List ℕ) → beside r.names w ≡ given_kind w (map line_of r.lines.items) };
}

impl<'a> Reading<'a> {
    /// Reads the lines of a script until the first fault.
    pub fn of(alloc: Global, bytes: &'a [u8], digits: u8) -> Result<Reading<'a>, ScriptFault>
        requires { digits ≤ 6 }
        ensures read { IfOk result (λ r. script_lines digits (numbered_words bytes.now) [] ≡ Ok r) }
        ensures fault { IfErr result (IsFaultOf (script_lines digits (numbered_words bytes.now) [])) }
    {
        let mut reading = Reading {
            lines: Vec::new(alloc),
            names: KnownNames::new(alloc),
        };
        for (number, line) in Lines::of(without_mark(bytes)) {
            reading.read_line(alloc, Words::of(line), number, digits)?;
        }
        Ok(reading)
    }

    /// The script of the lines.
    pub fn into_script(self) -> Script<'a>
        requires { AreSound [] self }
        ensures { result ≡ self.entry }
    {
        let Reading { lines, names: _ } = self;
        Script::of(lines)
    }

    // Reads the words of the line with this number.
    fn read_line(
        &mut self,
        alloc: Global,
        mut words: Words<'a>,
        number: u64,
        digits: u8,
    ) -> Result<(), ScriptFault>
        requires { digits ≤ 6 }
        ensures read { OnOk result (script_line digits number words.entry self.old ≡ Ok self.new) }
        ensures fault { IfErr result (IsFaultOf (script_line digits number words.entry self.old)) }
    {
        let Some(word) = words.next() else {
            return Ok(());
        };
        let Some(command) = CommandWord::named(word) else {
            return Err(bad(number, BAD_WORD));
        };
        let step = self.step(alloc, command, words, number, digits)?;
        self.add(number, step)
    }

    // The step of a command with the words after it on the line with this number; else the line's fault.
    fn step(
        &self,
        alloc: Global,
        command: CommandWord,
        words: Words<'a>,
        number: u64,
        digits: u8,
    ) -> Result<Step<'a>, ScriptFault>
        requires { digits ≤ 6 }
        ensures step { IfOk result (λ step. step_by digits self.now words.entry (Some (command_of command)) ≡ Ok (step_of step)) }
        ensures fault { IfErr result (IsFaultOf (on_line number (step_by digits self.now words.entry (Some (command_of command))))) }
    {
        let Some(words) = taken(words) else {
            return Err(bad(number, WRONG_COUNT));
        };
        self.step_of_words(alloc, command, words.as_slice(), number, digits)
    }

    // The step of a command with these operands on the line with this number; else the line's fault.
    fn step_of_words(
        &self,
        alloc: Global,
        command: CommandWord,
        operands: &[&'a [u8]],
        number: u64,
        digits: u8,
    ) -> Result<Step<'a>, ScriptFault>
        requires { digits ≤ 6 }
        ensures step { IfOk result (λ step. command_step digits self.now (map (λ w. w.now) operands.now) (command_of command) ≡ Ok (step_of step)) }
        ensures fault { IfErr result (IsFaultOf (on_line number (command_step digits self.now (map (λ w. w.now) operands.now) (command_of command)))) }
    {
        if let CommandWord::Polygon = command {
            return polygon_step(alloc, operands, number, digits);
        }
        match self.step_with(command, operands, digits) {
            Ok(step) => Ok(step),
            Err(kind) => Err(bad(number, kind)),
        }
    }

    // The step of a command other than `polygon` with these operands; else the kind of the line's fault.
    fn step_with(
        &self,
        command: CommandWord,
        operands: &[&'a [u8]],
        digits: u8,
    ) -> Result<Step<'a>, u8>
        requires digits { digits ≤ 6 }
        requires other { command ≡ CommandWord.Polygon → ⊥ }
        ensures step { IfOk result (λ step. command_step digits self.now (map (λ w. w.now) operands.now) (command_of command) ≡ Ok (step_of step)) }
        ensures fault { IfErr result (λ kind. command_step digits self.now (map (λ w. w.now) operands.now) (command_of command) ≡ Err kind) }
    {
        match command {
            CommandWord::Load => self.load_step(operands),
            CommandWord::Save => self.save_step(operands),
            CommandWord::Measure => self.measure_step(operands),
            CommandWord::Inspect => self.inspect_step(operands),
            CommandWord::Combine(op) => self.combine_step(op, operands),
            CommandWord::Make(solid) => solid_step(solid, operands, digits),
            CommandWord::Move(motion) => self.motion_step(motion, operands, digits),
            CommandWord::Tidy => self.tidy_step(operands),
            CommandWord::Remesh => self.remesh_step(operands),
            CommandWord::Polygon => unreachable!(),
            CommandWord::Combine2(op) => self.combine2_step(op, operands),
            CommandWord::Extrude => self.extrude_step(operands, digits),
            CommandWord::Exact => self.exact_step(operands),
        }
    }

    // The step that loads a mesh.
    fn load_step(&self, operands: &[&'a [u8]]) -> Result<Step<'a>, u8>
        ensures step { (k : ℕ) → IfOk result (λ step. command_step k self.now (map (λ w. w.now) operands.now) load ≡ Ok (step_of step)) }
        ensures fault { (k : ℕ) → IfErr result (λ kind. command_step k self.now (map (λ w. w.now) operands.now) load ≡ Err kind) }
    {
        match operands {
            &[name, file] => Ok(Step::Load {
                name: Word::of(name_text(name)?),
                file: Word::of(file_text(file)?),
            }),
            _ => Err(WRONG_COUNT),
        }
    }

    // The step that saves one.
    fn save_step(&self, operands: &[&'a [u8]]) -> Result<Step<'a>, u8>
        ensures step { (k : ℕ) → IfOk result (λ step. command_step k self.now (map (λ w. w.now) operands.now) save ≡ Ok (step_of step)) }
        ensures fault { (k : ℕ) → IfErr result (λ kind. command_step k self.now (map (λ w. w.now) operands.now) save ≡ Err kind) }
    {
        match operands {
            &[name, file] => Ok(Step::Save {
                name: Word::of(self.mesh_text(name)?),
                file: Word::of(file_text(file)?),
            }),
            _ => Err(WRONG_COUNT),
        }
    }

    // The step that measures one.
    fn measure_step(&self, operands: &[&'a [u8]]) -> Result<Step<'a>, u8>
        ensures step { (k : ℕ) → IfOk result (λ step. command_step k self.now (map (λ w. w.now) operands.now) measure ≡ Ok (step_of step)) }
        ensures fault { (k : ℕ) → IfErr result (λ kind. command_step k self.now (map (λ w. w.now) operands.now) measure ≡ Err kind) }
    {
        match operands {
            &[name] => Ok(Step::Measure {
                name: Word::of(self.mesh_text(name)?),
            }),
            _ => Err(WRONG_COUNT),
        }
    }

    // The step that inspects one.
    fn inspect_step(&self, operands: &[&'a [u8]]) -> Result<Step<'a>, u8>
        ensures step { (k : ℕ) → IfOk result (λ step. command_step k self.now (map (λ w. w.now) operands.now) inspect ≡ Ok (step_of step)) }
        ensures fault { (k : ℕ) → IfErr result (λ kind. command_step k self.now (map (λ w. w.now) operands.now) inspect ≡ Err kind) }
    {
        match operands {
            &[name] => Ok(Step::Inspect {
                name: Word::of(self.mesh_text(name)?),
            }),
            _ => Err(WRONG_COUNT),
        }
    }

    // The step that combines two.
    fn combine_step(&self, op: Op, operands: &[&'a [u8]]) -> Result<Step<'a>, u8>
        ensures step { (k : ℕ) → IfOk result (λ step. command_step k self.now (map (λ w. w.now) operands.now) (combine op) ≡ Ok (step_of step)) }
        ensures fault { (k : ℕ) → IfErr result (λ kind. command_step k self.now (map (λ w. w.now) operands.now) (combine op) ≡ Err kind) }
    {
        match operands {
            &[name, left, right] => Ok(Step::Combine {
                op,
                name: Word::of(name_text(name)?),
                left: Word::of(self.mesh_text(left)?),
                right: Word::of(self.mesh_text(right)?),
            }),
            _ => Err(WRONG_COUNT),
        }
    }

    // The step that tidies one.
    fn tidy_step(&self, operands: &[&'a [u8]]) -> Result<Step<'a>, u8>
        ensures step { (k : ℕ) → IfOk result (λ step. command_step k self.now (map (λ w. w.now) operands.now) tidy ≡ Ok (step_of step)) }
        ensures fault { (k : ℕ) → IfErr result (λ kind. command_step k self.now (map (λ w. w.now) operands.now) tidy ≡ Err kind) }
    {
        match operands {
            &[name, source] => Ok(Step::Tidy {
                name: Word::of(name_text(name)?),
                source: Word::of(self.mesh_text(source)?),
            }),
            _ => Err(WRONG_COUNT),
        }
    }

    // The step that remeshes one.
    fn remesh_step(&self, operands: &[&'a [u8]]) -> Result<Step<'a>, u8>
        ensures step { (k : ℕ) → IfOk result (λ step. command_step k self.now (map (λ w. w.now) operands.now) remesh ≡ Ok (step_of step)) }
        ensures fault { (k : ℕ) → IfErr result (λ kind. command_step k self.now (map (λ w. w.now) operands.now) remesh ≡ Err kind) }
    {
        match operands {
            &[name, source] => Ok(Step::Remesh {
                name: Word::of(name_text(name)?),
                source: Word::of(self.mesh_text(source)?),
            }),
            _ => Err(WRONG_COUNT),
        }
    }

    // The step that combines two outlines.
    fn combine2_step(&self, op: Op, operands: &[&'a [u8]]) -> Result<Step<'a>, u8>
        ensures step { (k : ℕ) → IfOk result (λ step. command_step k self.now (map (λ w. w.now) operands.now) (combine2 op) ≡ Ok (step_of step)) }
        ensures fault { (k : ℕ) → IfErr result (λ kind. command_step k self.now (map (λ w. w.now) operands.now) (combine2 op) ≡ Err kind) }
    {
        match operands {
            &[name, left, right] => Ok(Step::Combine2 {
                op,
                name: Word::of(name_text(name)?),
                left: Word::of(self.outline_text(left)?),
                right: Word::of(self.outline_text(right)?),
            }),
            _ => Err(WRONG_COUNT),
        }
    }

    // The step that makes a solid of an outline.
    fn extrude_step(&self, operands: &[&'a [u8]], digits: u8) -> Result<Step<'a>, u8>
        requires { digits ≤ 6 }
        ensures step { IfOk result (λ step. command_step digits self.now (map (λ w. w.now) operands.now) extrude ≡ Ok (step_of step)) }
        ensures fault { IfErr result (λ kind. command_step digits self.now (map (λ w. w.now) operands.now) extrude ≡ Err kind) }
    {
        match operands {
            &[name, source, low, high] => Ok(Step::Extrude {
                name: Word::of(name_text(name)?),
                source: Word::of(self.outline_text(source)?),
                low: number(low, digits)?,
                high: number(high, digits)?,
            }),
            _ => Err(WRONG_COUNT),
        }
    }

    // The step that chooses exact kernels.
    fn exact_step(&self, operands: &[&'a [u8]]) -> Result<Step<'a>, u8>
        ensures step { (k : ℕ) → IfOk result (λ step. command_step k self.now (map (λ w. w.now) operands.now) exact ≡ Ok (step_of step)) }
        ensures fault { (k : ℕ) → IfErr result (λ kind. command_step k self.now (map (λ w. w.now) operands.now) exact ≡ Err kind) }
    {
        match operands {
            &[] => Ok(Step::Exact),
            _ => Err(WRONG_COUNT),
        }
    }

    /// The text of a word that is the name of a mesh; else the kind of its fault.
    pub fn mesh_text(&self, word: &'a [u8]) -> Result<&'a str, u8>
        ensures text { IfOk result (λ text. text.now ≡ word.now) }
        ensures sound { OnOk result (old_name_fault HeldKind.Mesh self.now word.now ≡ None) }
        ensures fault { IfErr result (λ kind. old_name_fault HeldKind.Mesh self.now word.now ≡ Some kind) }
    {
        self.old_text(HeldKind::Mesh, word)
    }

    // The text of a word that is the name of an outline; else the kind of its fault.
    fn outline_text(&self, word: &'a [u8]) -> Result<&'a str, u8>
        ensures text { IfOk result (λ text. text.now ≡ word.now) }
        ensures sound { OnOk result (old_name_fault HeldKind.Outline self.now word.now ≡ None) }
        ensures fault { IfErr result (λ kind. old_name_fault HeldKind.Outline self.now word.now ≡ Some kind) }
    {
        self.old_text(HeldKind::Outline, word)
    }

    // The text of a word that is a name of this kind; else the kind of its fault.
    fn old_text(&self, held: HeldKind, word: &'a [u8]) -> Result<&'a str, u8>
        ensures text { IfOk result (λ text. text.now ≡ word.now) }
        ensures sound { OnOk result (old_name_fault held self.now word.now ≡ None) }
        ensures fault { IfErr result (λ kind. old_name_fault held self.now word.now ≡ Some kind) }
    {
        let text = name_text(word)?;
        if self.names.has(held, text) {
            Ok(text)
        } else {
            Err(NAME_NOT_DEFINED)
        }
    }

    // Adds a step with the number of its line.
    fn add(&mut self, number: u64, step: Step<'a>) -> Result<(), ScriptFault>
        ensures added { OnOk result (self.new ≡ self.old ++ (number, step_of step.entry) ∷ []) }
        ensures fault { IfErr result (λ e. e ≡ ScriptFault.NoMemory) }
    {
        self.lines.reserve(1)?;
        self.names.add_new(&step)?;
        match self.lines.push(Line { line: number, step }) {
            Ok(()) => Ok(()),
            Err(_) => unreachable!(),
        }
    }
}

// The groups of faces: the label of a `g` line, and the labels of the triangles.
ghost use Rattle.std.specs.Prelude.{◌≡◌, ◌≤◌, ◌+◌, ◌++◌, ◌∷◌, ◌-◌, [], length, replicate, take, map, OnOk};
ghost use Rattle.text_terms.specs.Lines.{last_is};
ghost use Rattle.mesh_terms.specs.Labels.{IsLabel};
ghost use Rattle.format_terms.specs.ObjLabels.{label_byte, label_of, without_blank};
ghost use Rattle.obj_text.specs.Groups.{no_groups, padded, put_behind};

use crate::words::ObjWords;
use arrayvec::ArrayVec;
use mb_base::{Labels, NoMemory};
use std::alloc::Global;
use std::marker::Model;

// The most bytes of a label.
const MOST: usize = 64;

// A label, or its first bytes.
type Label = ArrayVec<u8, MOST>;

/// The labels of the triangles so far, and the label of those to come. Labels that are empty are kept only
/// where another comes after them.
#[derive(Drop)]
pub struct Groups {
    labels: Labels,
    label: Label,
}

impl Model for Groups {
    ghost use Rattle.mesh_terms.specs.Labels.{IsLabel};
    ghost use Rattle.obj_text.specs.Groups.{Grouped};

    ghost Value = { Grouped };

    ghost view = { λ g. record { labels = g.labels; label = g.label.items } };

    ghost invariant = { λ g. IsLabel g.label.items };
}

impl Groups {
    /// No labels so far, and an empty one to come.
    pub fn new(alloc: Global) -> Groups
        ensures { result ≡ no_groups }
    {
        Groups {
            labels: Labels::start(alloc),
            label: ArrayVec::new(),
        }
    }

    /// The label of the words of a line after its first one comes next.
    pub fn set(&mut self, words: ObjWords<'_>)
        ensures labels { self.new.labels ≡ self.old.labels }
        ensures label { self.new.label ≡ label_of words.entry }
    {
        words.are_read();
        self.label = label_of(words);
    }

    /// Gives the present label to the triangles from one number up to another.
    pub fn extend(&mut self, from: usize, to: usize) -> Result<(), NoMemory>
        requires order { from ≤ to }
        requires few { length self.old.labels ≤ from }
        ensures added { OnOk result (padded to self.new.labels ≡ padded from self.old.labels ++ replicate (to - from) self.old.label) }
        ensures few { length self.new.labels ≤ to }
        ensures label { self.new.label ≡ self.old.label }
    {
        if self.label.is_empty() {
            return Ok(());
        }
        let missing = from - self.labels.len();
        push_times(&mut self.labels, &[], missing)?;
        push_times(&mut self.labels, &self.label, to - from)
    }

    /// The labels.
    pub fn into_labels(self) -> Labels
        ensures { result ≡ self.labels }
    {
        self.labels
    }
}

// Adds a label so many times.
fn push_times(labels: &mut Labels, label: &[u8], times: usize) -> Result<(), NoMemory>
    requires { IsLabel label.now }
    ensures added { OnOk result (labels.new ≡ labels.old ++ replicate times label.now) }
    ensures few { length labels.new ≤ length labels.old + times }
{
    for _ in 0..times {
        labels.push(label)?;
    }
    Ok(())
}

// The label of these words.
fn label_of(words: ObjWords<'_>) -> Label
    ensures { result.items ≡ label_of words.entry }
{
    let mut label = Label::new();
    let mut first = true;
    for word in words {
        push_next(&mut label, first, word);
        first = false;
    }
    drop_blank(&mut label);
    label
}

// Adds a word, after a blank unless it is the first, as far as there is room.
fn push_next(label: &mut Label, first: bool, word: &[u8])
    ensures { label.new.items ≡ take 64 (label.old.items ++ put_behind first (map label_byte word.now)) }
{
    if first {
        push_word(label, word);
    } else {
        push_byte(label, b' ');
        push_word(label, word);
    }
}

// Adds the bytes of a word, those that no label has as `_`, as far as there is room.
fn push_word(label: &mut Label, word: &[u8])
    ensures { label.new.items ≡ take 64 (label.old.items ++ map label_byte word.now) }
{
    // Read so that its room is known here.
    let _ = label.len();
    for byte in word {
        push_byte(label, label_byte(*byte));
    }
}

// Adds a byte, where there is room for it.
fn push_byte(label: &mut Label, byte: u8)
    ensures { label.new.items ≡ take 64 (label.old.items ++ byte ∷ []) }
{
    if label.len() < MOST {
        label.push(byte);
    }
}

// Drops a blank at the end.
fn drop_blank(label: &mut Label)
    ensures { label.new.items ≡ without_blank label.old.items }
{
    if ends_in_blank(label) {
        label.pop();
    }
}

// Whether the last byte is a blank.
fn ends_in_blank(text: &[u8]) -> bool
    ensures { result ≡ last_is 32 text.now }
{
    match text.split_last() {
        Some((last, _)) => *last == b' ',
        None => false,
    }
}

// The byte of a label for the byte of a word.
fn label_byte(byte: u8) -> u8
    ensures { result ≡ label_byte byte }
{
    if byte <= b' ' || byte == 127 || byte == b'\\' {
        b'_'
    } else {
        byte
    }
}

// Labels one behind the other, each run of equal ones stored once.
ghost use Rattle.std.specs.Prelude.{◌≡◌, ◌+◌, ◌++◌, ◌∷◌, ◌<◌, [], ℕ, List, get_or, length, map, IfOk, IfSome, IsTrue, OnOk, OnErr};
ghost use Rattle.std.specs.List.{All};
ghost use Rattle.mesh_terms.specs.Labels.{IsLabel, label_at};
ghost use Rattle.mb_base.specs.Labels.{IsStored, label_of_two, stored_label, stored_labels};

use crate::NoMemory;
use std::alloc::Global;
use std::marker::Model;

// The most bytes of a label, and one for its length.
const STORED: usize = 65;

// A list of labels.
#[derive(Drop)]
pub(crate) struct StoredLabels {
    // Where the label of each triangle starts among the bytes: its length, then its bytes.
    starts: Vec<u32>,
    bytes: Vec<u8>,
}

impl Model for StoredLabels {
    ghost use Rattle.std.specs.Prelude.{ℕ, List};
    ghost use Rattle.std.specs.List.{All};
    ghost use Rattle.mb_base.specs.Labels.{IsStored, stored_labels};

    ghost Value = { List (List ℕ) };

    ghost view = { λ l. stored_labels l.bytes.items l.starts.items };

    ghost invariant = { λ l. All (IsStored l.bytes.items) l.starts.items };
}

impl StoredLabels {
    // The empty list.
    pub(crate) fn start(alloc: Global) -> StoredLabels
        ensures { result ≡ [] }
    {
        StoredLabels {
            starts: Vec::new(alloc),
            bytes: Vec::new(alloc),
        }
    }

    // Adds a label at the end.
    pub(crate) fn push(&mut self, label: &[u8]) -> Result<(), NoMemory>
        requires { IsLabel label.now }
        ensures added { OnOk result (self.new ≡ self.old ++ label.now ∷ []) }
        ensures kept { OnErr result (self.new ≡ self.old) }
    {
        let start = place(&mut self.bytes, &self.starts, label)?;
        self.starts.push(start)?;
        Ok(())
    }

    // The label of a triangle.
    pub(crate) fn get(&self, t: u32) -> &[u8]
        ensures value { result.now ≡ label_at self.now t }
        ensures label { IsLabel result.now }
    {
        match self.starts.get(t as usize) {
            Some(start) => label_stored(&self.bytes, *start),
            None => &self.bytes[..0],
        }
    }

    // The number of labels.
    pub(crate) fn len(&self) -> usize
        ensures value { result ≡ length self.now }
        ensures labels { All IsLabel self.now }
    {
        self.starts.len()
    }

    // An equal list.
    pub(crate) fn copy(&self, alloc: Global) -> Result<StoredLabels, NoMemory>
        ensures { IfOk result (λ labels. labels ≡ self.now) }
    {
        Ok(StoredLabels {
            starts: self.starts.to_vec(alloc)?,
            bytes: self.bytes.to_vec(alloc)?,
        })
    }

    // The labels of these faces: of those below `count` in the first list, of the others in the second. Faces that follow each
    // other and whose labels are stored at one place share them here too.
    pub(crate) fn of_faces(
        alloc: Global,
        first: &StoredLabels,
        second: &StoredLabels,
        count: u32,
        faces: &[u32],
    ) -> Result<StoredLabels, NoMemory>
        ensures { IfOk result (λ labels. labels ≡ map (label_of_two first.now second.now count) faces.now) }
    {
        let mut all = StoredLabels::start(alloc);
        for (k, face) in faces.iter().enumerate() {
            if k > 0 && are_shared(first, second, count, faces[k - 1], *face) {
                all.repeat(k - 1)?;
            } else {
                all.add(label_of_two(first, second, count, *face))?;
            }
        }
        Ok(all)
    }

    // Adds the label of a triangle once more.
    fn repeat(&mut self, t: usize) -> Result<(), NoMemory>
        requires { t < length self.old }
        ensures added { OnOk result (self.new ≡ self.old ++ label_at self.old t ∷ []) }
        ensures kept { OnErr result (self.new ≡ self.old) }
    {
        let start = self.starts[t];
        self.starts.push(start)?;
        Ok(())
    }

    // Adds a label at the end, stored anew.
    fn add(&mut self, label: &[u8]) -> Result<(), NoMemory>
        requires { IsLabel label.now }
        ensures added { OnOk result (self.new ≡ self.old ++ label.now ∷ []) }
        ensures kept { OnErr result (self.new ≡ self.old) }
    {
        let start = new_place(&mut self.bytes, &self.starts, label)?;
        self.starts.push(start)?;
        Ok(())
    }

    // Whether the labels of two triangles are stored at one place, or both are past the end.
    pub(crate) fn shares(&self, t: u32, other: u32) -> bool
        ensures { IsTrue result → label_at self.now t ≡ label_at self.now other }
    {
        match (self.starts.get(t as usize), self.starts.get(other as usize)) {
            (Some(start), Some(at)) => *start == *at,
            (None, None) => true,
            _ => false,
        }
    }
}

// The label of a face: in the first list below `count`, else in the second.
fn label_of_two<'a>(
    first: &'a StoredLabels,
    second: &'a StoredLabels,
    count: u32,
    face: u32,
) -> &'a [u8]
    ensures value { result.now ≡ label_of_two first.now second.now count face }
    ensures label { IsLabel result.now }
{
    if face < count {
        first.get(face)
    } else {
        second.get(face - count)
    }
}

// Whether the labels of two faces are in one list, stored at one place.
fn are_shared(
    first: &StoredLabels,
    second: &StoredLabels,
    count: u32,
    face: u32,
    other: u32,
) -> bool
    ensures { IsTrue result → label_of_two first.now second.now count face ≡ label_of_two first.now second.now count other }
{
    if face < count && other < count {
        return first.shares(face, other);
    }
    face >= count && other >= count && second.shares(face - count, other - count)
}

// The label that is stored at a place.
fn label_stored(bytes: &[u8], start: u32) -> &[u8]
    requires { IsStored bytes.now start }
    ensures { result.now ≡ stored_label bytes.now start }
{
    let start = start as usize;
    let first = start + 1;
    let count = bytes[start] as usize;
    &bytes[first..first + count]
}

// Where a label is stored: where the last one is, if it is the same, and else behind the others.
fn place(bytes: &mut Vec<u8>, starts: &[u32], label: &[u8]) -> Result<u32, NoMemory>
    requires stored { All (IsStored bytes.now.items) starts.now }
    requires label { IsLabel label.now }
    ensures kept { All (IsStored bytes.new.items) starts.now }
    ensures labels { stored_labels bytes.new.items starts.now ≡ stored_labels bytes.old.items starts.now }
    ensures place { IfOk result (λ start. IsStored bytes.new.items start × (stored_label bytes.new.items start ≡ label.now)) }
{
    match last_start(bytes, starts, label) {
        Some(start) => Ok(start),
        None => new_place(bytes, starts, label),
    }
}

// The same, always behind the others.
fn new_place(bytes: &mut Vec<u8>, starts: &[u32], label: &[u8]) -> Result<u32, NoMemory>
    requires stored { All (IsStored bytes.now.items) starts.now }
    requires label { IsLabel label.now }
    ensures kept { All (IsStored bytes.new.items) starts.now }
    ensures labels { stored_labels bytes.new.items starts.now ≡ stored_labels bytes.old.items starts.now }
    ensures place { IfOk result (λ start. IsStored bytes.new.items start × (stored_label bytes.new.items start ≡ label.now)) }
{
    store(bytes, label)
}

// Where the last label is stored, where it is this one.
fn last_start(bytes: &[u8], starts: &[u32], label: &[u8]) -> Option<u32>
    requires { All (IsStored bytes.now) starts.now }
    ensures { IfSome result (λ start. IsStored bytes.now start × (stored_label bytes.now start ≡ label.now)) }
{
    match starts.last() {
        Some(start) if label_stored(bytes, *start) == label => Some(*start),
        _ => None,
    }
}

// Stores a label behind the others, and answers where.
fn store(bytes: &mut Vec<u8>, label: &[u8]) -> Result<u32, NoMemory>
    requires { IsLabel label.now }
    ensures start { IfOk result (λ start. start ≡ length bytes.old.items) }
    ensures added { OnOk result (bytes.new.items ≡ bytes.old.items ++ length label.now ∷ label.now) }
    ensures kept { OnErr result (bytes.new.items ≡ bytes.old.items) }
{
    let start = bytes.len();
    if start > u32::MAX as usize {
        return Err(NoMemory);
    }
    let mut stored = [0u8; STORED];
    let end = label.len() + 1;
    stored[0] = label.len() as u8;
    stored[1..end].copy_from_slice(label);
    bytes.extend_from_slice(&stored[..end])?;
    Ok(start as u32)
}

// The labels of triangles.
//
// `Labels` takes no memory for an empty list, and else four bytes for each label besides the bytes of each run. Its
// bytes are counted in 32 bits: past 4 GB, which no file of the program has, it answers that there is no memory.
ghost use Rattle.std.specs.Prelude.{◌≡◌, ◌++◌, ◌∷◌, [], length, map, IfOk, IsTrue, OnOk, OnErr};
ghost use Rattle.std.specs.List.{All};
ghost use Rattle.mesh_terms.specs.Labels.{IsLabel, label_at};
ghost use Rattle.mb_base.specs.Labels.{label_of_two, labels_in};

mod stored;

use crate::NoMemory;
use std::alloc::Global;
use std::marker::Model;
use std::rc::Rc;
use stored::StoredLabels;

/// A list of labels, one for each of the first triangles of a mesh; that of a triangle past its end is empty. A label is
/// a text of at most 64 bytes: empty, or words joined by one blank, of bytes above 32 other than 127 and `\`, none of
/// which begins with `#`. A label that follows an equal one takes four bytes, another one five more than it has.
#[derive(Drop)]
pub struct Labels {
    alloc: Global,
    // Shared with the copies of the list; None where nothing was added.
    shared: Option<Rc<StoredLabels>>,
}

impl Model for Labels {
    ghost use Rattle.std.specs.Prelude.{ℕ, List};
    ghost use Rattle.mb_base.specs.Labels.{labels_in};

    ghost Value = { List (List ℕ) };

    ghost view = { λ l. labels_in l.shared };
}

impl Labels {
    /// The empty list. It takes no memory.
    pub fn start(alloc: Global) -> Labels
        ensures { result ≡ [] }
    {
        Labels {
            alloc,
            shared: None,
        }
    }

    /// Adds a label at the end, in place where no copy shares the list, and else to a list of its own. After want of
    /// memory, which also comes where the runs of equal labels together have more than 4 GB, the list is unchanged.
    pub fn push(&mut self, label: &[u8]) -> Result<(), NoMemory>
        requires { IsLabel label.now }
        ensures added { OnOk result (self.new ≡ self.old ++ label.now ∷ []) }
        ensures kept { OnErr result (self.new ≡ self.old) }
    {
        if let Some(shared) = &mut self.shared {
            if let Some(stored) = Rc::get_mut(shared) {
                return stored.push(label);
            }
        }
        let mut own = self.own()?;
        own.push(label)?;
        self.shared = Some(Rc::new(self.alloc, own)?);
        Ok(())
    }

    /// The label of a triangle; past the end it is empty.
    pub fn get(&self, t: u32) -> &[u8]
        ensures value { result.now ≡ label_at self.now t }
        ensures label { IsLabel result.now }
    {
        match &self.shared {
            Some(stored) => stored.get(t),
            None => &[],
        }
    }

    /// Whether two triangles are known, without a look at the bytes, to have the same label: they are in one run of equal
    /// labels, or both past the end.
    pub fn shares(&self, t: u32, other: u32) -> bool
        ensures { IsTrue result → label_at self.now t ≡ label_at self.now other }
    {
        match &self.shared {
            Some(stored) => stored.shares(t, other),
            None => true,
        }
    }

    /// The number of labels.
    pub fn len(&self) -> usize
        ensures value { result ≡ length self.now }
        ensures labels { All IsLabel self.now }
    {
        match &self.shared {
            Some(stored) => stored.len(),
            None => 0,
        }
    }

    /// An equal list, which shares the labels with this one until something is added to either.
    pub fn copy(&self, alloc: Global) -> Result<Labels, NoMemory>
        ensures { IfOk result (λ labels. labels ≡ self.now) }
    {
        let shared = match &self.shared {
            Some(stored) => Some(stored.clone()?),
            None => None,
        };
        Ok(Labels { alloc, shared })
    }

    /// The labels of these faces: of those below `count` in the first list, of the others in the second, which starts with face
    /// `count`. No two labels are compared: it takes four bytes for each face and, for each run of faces whose labels are
    /// stored at one place, those of the label. `NoMemory` also comes where all these together have more than 4 GB.
    pub fn of_faces(
        alloc: Global,
        first: &Labels,
        second: &Labels,
        count: u32,
        faces: &[u32],
    ) -> Result<Labels, NoMemory>
        ensures { IfOk result (λ labels. labels ≡ map (label_of_two first.now second.now count) faces.now) }
    {
        let none = StoredLabels::start(alloc);
        let stored = StoredLabels::of_faces(
            alloc,
            first.stored(&none),
            second.stored(&none),
            count,
            faces,
        )?;
        Ok(Labels {
            alloc,
            shared: Some(Rc::new(alloc, stored)?),
        })
    }

    // The labels as they are stored, where nothing was added in a list without any.
    fn stored<'a>(&'a self, none: &'a StoredLabels) -> &'a StoredLabels
        requires { none.now ≡ [] }
        ensures { result.now ≡ self.now }
    {
        match &self.shared {
            Some(stored) => stored,
            None => none,
        }
    }

    // The labels in a list that nothing shares.
    fn own(&self) -> Result<StoredLabels, NoMemory>
        ensures { IfOk result (λ own. own ≡ self.now) }
    {
        match &self.shared {
            Some(stored) => stored.copy(self.alloc),
            None => Ok(StoredLabels::start(self.alloc)),
        }
    }
}

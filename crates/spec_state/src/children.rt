//! Where the children of each task stand.

ghost use Rattle.std.specs.Prelude.{◌≡◌, ◌≢◌, ◌≤◌, ◌<◌, ◌↔◌, ℕ, [], true, length, replicate, slice_get};
ghost use Rattle.std.specs.Prelude.{IsTrue, IfOk, IsSome, IfSome};
ghost use Rattle.slab.specs.Slab.{get};
ghost use Rattle.spec_state.specs.Children.{AreNoted, AreNotedBut, HasPlace, IsChildAt, IsVacantPlace, IsNotable};
ghost use Rattle.spec_state.specs.Children.{Notes, NotesAt, noted_of};

use crate::task::{Creator, Task};
use arrayvec::ArrayVec;
use kept_slab::KeptSlab;
use std::alloc::{AllocError, Global};
use std::marker::Model;
use task_desc::MAX_CHILDREN;

/// How many children of a task are noted: all that it may have.
const MAX_NOTED: usize = MAX_CHILDREN as usize;

/// The ids under which the children of one task were put last, by their places among its children: at most
/// `MAX_NOTED`. The memory for all of them is in it from the start.
#[derive(Drop)]
struct Places {
    ids: ArrayVec<u32, MAX_NOTED>,
}

impl Model for Places {
    ghost use Rattle.std.specs.Prelude.{List, ℕ};

    ghost Value = { List ℕ };

    ghost view = { λ p. p.ids.items };
}

impl Places {
    /// No child.
    fn new() -> Self
        ensures { result ≡ [] }
    {
        Places {
            ids: ArrayVec::new(),
        }
    }

    /// The id that was noted for the child at this place, if one was.
    fn get(&self, place: usize) -> Option<usize>
        ensures { result ≡ slice_get self.now place }
    {
        self.ids.as_slice().get(place).map(|id| *id as usize)
    }

    /// Notes the id of the child at this place. It returns whether that could be noted: each place below it has been
    /// noted, and it is below `MAX_NOTED`.
    fn note(&mut self, place: usize, id: u32) -> bool
        ensures notes { IsTrue result → NotesAt place id self.old self.new }
        ensures noted { IsTrue result ↔ ((place ≤ length self.old) × (place < MAX_NOTED)) }
    {
        let noted = self.ids.len();
        if place < noted {
            self.ids[place] = id;
            true
        } else if place == noted && noted < MAX_NOTED {
            self.ids.push(id);
            true
        } else {
            false
        }
    }

    /// The ids.
    fn as_slice(&self) -> &[u32]
        ensures { result.now ≡ self.now }
    {
        self.ids.as_slice()
    }

    /// Forgets all children.
    fn clear(&mut self)
        ensures { self.new ≡ [] }
    {
        self.ids.clear();
    }
}

/// Whether the task whose id is `key` is the child at this place of the task `id`.
fn is_child_at(tasks: &KeptSlab<Task>, key: usize, id: usize, place: usize) -> bool
    ensures { IsTrue result ↔ IsChildAt id place (get tasks.now key) }
{
    match tasks.get(key) {
        Some(task) => match task.creator {
            Creator::Live {
                task: creator,
                index,
            } => creator.0 == id && index as usize == place,
            Creator::Committed { .. } => false,
        },
        None => false,
    }
}

/// The ids under which the children of each task were put last, so that they are found without a search. The notes are
/// complete as long as each child is put after those at earlier places and no two share a place, as events put them;
/// once incomplete they are no longer used.
#[derive(Drop)]
pub struct Children {
    /// The children of each task that may be.
    places: Vec<Places>,
    /// Whether each child is noted where it stands.
    complete: bool,
}

impl Model for Children {
    ghost use Rattle.spec_state.specs.Children.{ChildrenValue};

    ghost Value = { ChildrenValue };

    ghost view = { λ c. record { lists = c.places.items; complete = c.complete } };
}

impl Children {
    /// No child noted of so many tasks. `AllocError` where memory runs out.
    pub(crate) fn new(alloc: Global, tasks: u32) -> Result<Self, AllocError>
        ensures { IfOk result (λ children. children ≡ record { lists = replicate tasks []; complete = true }) }
    {
        let mut places = Vec::with_capacity(alloc, tasks as usize)?;
        for _ in 0..tasks {
            places.push(Places::new())?;
        }
        Ok(Children {
            places,
            complete: true,
        })
    }

    /// The id that was noted for the child at this place of the task of this id, if one was.
    fn noted_id(&self, id: usize, place: usize) -> Option<usize>
        ensures { result ≡ slice_get (noted_of self.now id) place }
    {
        match self.places.get(id) {
            Some(places) => places.get(place),
            None => None,
        }
    }

    /// Whether the child at this place of this creator doesn't stand where it was noted, unless that is under this id.
    fn is_free(&self, tasks: &KeptSlab<Task>, id: usize, creator: usize, place: usize) -> bool
        ensures { IsTrue result ↔ IsVacantPlace tasks.now.slots id creator place self.now }
    {
        match self.noted_id(creator, place) {
            Some(noted) => noted == id || !is_child_at(tasks, noted, creator, place),
            None => true,
        }
    }

    /// Notes the id of the child at this place of this creator. It returns whether that could be noted.
    fn put(&mut self, id: usize, creator: usize, place: usize) -> bool
        ensures complete { self.new.complete ≡ self.old.complete }
        ensures notes { IsTrue result → Notes creator place id self.old self.new }
        ensures noted { IsTrue result ↔ HasPlace id creator place self.old }
    {
        match u32::try_from(id) {
            Ok(id) if creator < self.places.len() => self.places[creator].note(place, id),
            _ => false,
        }
    }

    /// Notes the child with this id at this place of this creator, where all others are noted. The notes stay complete
    /// exactly where it can be noted.
    fn note_child(&mut self, tasks: &KeptSlab<Task>, id: usize, creator: usize, place: usize)
        requires child { IsChildAt creator place (get tasks.now id) }
        requires others { AreNotedBut id tasks.now.slots self.old }
        ensures noted { AreNoted tasks.now.slots self.new }
        ensures complete { IsTrue self.new.complete ↔ (IsTrue self.old.complete
            × IsNotable tasks.now.slots id creator place self.old) }
    {
        let free = self.is_free(tasks, id, creator, place);
        let put = self.put(id, creator, place);
        if !(free && put) {
            self.complete = false;
        }
    }

    /// Notes the task with this id, where all others are noted. The notes stay complete exactly where it isn't a child,
    /// or can be noted.
    pub(crate) fn note(&mut self, tasks: &KeptSlab<Task>, id: usize)
        requires { AreNotedBut id tasks.now.slots self.old }
        ensures noted { AreNoted tasks.now.slots self.new }
        ensures complete { IsTrue self.new.complete ↔ (IsTrue self.old.complete
            × ((creator place : ℕ) → IsChildAt creator place (get tasks.now id)
            → IsNotable tasks.now.slots id creator place self.old)) }
    {
        if let Some(task) = tasks.get(id) {
            if let Creator::Live {
                task: creator,
                index,
            } = task.creator
            {
                self.note_child(tasks, id, creator.0, index as usize);
            }
        }
    }

    /// The ids that are noted for the children of a task, by their places: each of its children has one of them, while
    /// one of them may be another task's, or no task's. None exactly where the notes aren't complete, or no task ever
    /// had this id.
    pub fn of(&self, id: usize) -> Option<&[u32]>
        ensures ids { IfSome result (λ ids. ids.now ≡ noted_of self.now id) }
        ensures complete { IsSome result ↔ (IsTrue self.now.complete × (id < length self.now.lists)) }
    {
        if !self.complete {
            return None;
        }
        match self.places.get(id) {
            Some(places) => Some(places.as_slice()),
            None => None,
        }
    }

    /// Forgets the children of a task.
    pub fn forget(&mut self, id: usize)
        ensures complete { self.new.complete ≡ self.old.complete }
        ensures none { noted_of self.new id ≡ [] }
        ensures others { (k : ℕ) → k ≢ id → noted_of self.new k ≡ noted_of self.old k }
    {
        if id < self.places.len() {
            self.places[id].clear();
        }
    }
}

//! The lines of a task, by a filter of one of three kinds.

ghost use Rattle.std.specs.Prelude.{◌≡◌, ◌↔◌, List, [], ◌∷◌, ◌++◌, ℕ, IsTrue, IsOk, OnOk, OnErr};
ghost use Rattle.line_table.specs.declared.lines.FilterKind.{FilterKind};
ghost use Rattle.line_table.specs.declared.lines.FilterKind.TheVariants.{Modulo, Bloom, Exact};
ghost use Rattle.line_table.specs.Note.{Note, Meet};
ghost use Rattle.line_table.specs.Lines.{IsLines, unmarked, unmarked_of, may_touch, may_write, is_ruled_out};
ghost use Rattle.line_table.specs.Lines.{HasLines, bits_touch, bits_write};

use crate::banks::{mark_banks, touched_in_banks, wrote_in_banks};
use crate::hash::hashes;
use crate::{Filter, Signature};
use std::alloc::AllocError;

/// How many numbers of lines there are.
const LINES: u64 = 4_294_967_296;

/// The kind of a filter: how it maps lines to bits.
#[derive(Clone, Copy, Debug, PartialEq, Eq)]
pub enum FilterKind {
    /// By their numbers modulo 1,024.
    Modulo,
    /// By eight hashes of their numbers: a Bloom filter of 2,048 bits.
    Bloom,
    /// Each from every other, by the log of the task.
    Exact,
}

/// Bits for the lines that a task touched, and for those that it wrote. A filter of each kind is kept in them; one
/// of the kind `Exact` asks the task's log where its bits say yes, and has no memory of its own for that. It has no
/// model, so that it is `Copy` with no proof.
#[derive(Clone, Copy)]
pub struct Lines {
    /// What kind of filter it is since something was noted.
    kind: FilterKind,
    /// How many bytes a line has since something was noted.
    size: u32,
    /// The bits of `Modulo` and `Exact`, and the first four banks of `Bloom`.
    near: Signature,
    /// The last four banks of `Bloom`.
    far: Signature,
}

impl Lines {
    /// Lines with no notes. It takes no memory.
    #[tactic(auto, unfolding(crate::specs::Lines::unmarked))]
    pub const fn new() -> Self
        ensures { result ≡ unmarked }
    {
        Lines {
            kind: FilterKind::Modulo,
            size: 0,
            near: Signature::new(),
            far: Signature::new(),
        }
    }

    /// Lines with no notes, for a filter of this kind and lines of so many bytes. It takes no memory.
    #[tactic(auto, unfolding(crate::specs::Lines::unmarked_of))]
    pub const fn of(kind: FilterKind, size: u32) -> Self
        ensures { result ≡ unmarked_of kind size }
    {
        Lines {
            kind,
            size,
            near: Signature::new(),
            far: Signature::new(),
        }
    }

    /// What kind of filter it is; `Modulo` where nothing was noted.
    pub fn kind(&self) -> FilterKind
        ensures { result ≡ self.now.kind }
    {
        self.kind
    }

    /// How many bytes a line has; 0 where nothing was noted.
    pub fn size(&self) -> u32
        ensures { result ≡ self.now.size }
    {
        self.size
    }

    /// Notes an access to the line, which is a store if `write` is true, for a filter of this kind and lines of so
    /// many bytes. Those noted before have to be of the same kind. It takes no memory.
    pub fn mark(&mut self, kind: FilterKind, size: u32, line: u32, write: bool)
        ensures { let note : Note = record { line = line; write = write } in
            (notes : List Note) → IsLines kind size self.old notes → IsLines kind size self.new (notes ++ note ∷ []) }
    {
        self.kind = kind;
        self.size = size;
        match kind {
            FilterKind::Modulo => self.near.mark(line, write),
            FilterKind::Bloom => {
                let mixed = hashes(line);
                mark_banks(&mut self.near, (mixed % 4_294_967_296) as u32, write);
                mark_banks(&mut self.far, (mixed / 4_294_967_296) as u32, write);
            }
            FilterKind::Exact => self.near.mark(line, write),
        }
    }

    /// Whether the bits say that the line was noted. One of the kind `Exact` may say so of a line that was not.
    pub fn may_touch(&self, line: u32) -> bool
        ensures { result ≡ may_touch self.now.kind self.now line }
    {
        match self.kind {
            FilterKind::Modulo => self.near.touched(line),
            FilterKind::Bloom => {
                let mixed = hashes(line);
                touched_in_banks(&self.near, (mixed % 4_294_967_296) as u32)
                    && touched_in_banks(&self.far, (mixed / 4_294_967_296) as u32)
            }
            FilterKind::Exact => self.near.touched(line),
        }
    }

    /// Whether the bits say that the line was noted with a write. One of the kind `Exact` may say so of a line that
    /// was not.
    pub fn may_write(&self, line: u32) -> bool
        ensures { result ≡ may_write self.now.kind self.now line }
    {
        match self.kind {
            FilterKind::Modulo => self.near.wrote(line),
            FilterKind::Bloom => {
                let mixed = hashes(line);
                wrote_in_banks(&self.near, (mixed % 4_294_967_296) as u32)
                    && wrote_in_banks(&self.far, (mixed / 4_294_967_296) as u32)
            }
            FilterKind::Exact => self.near.wrote(line),
        }
    }

    /// Whether one look at the bits rules out that the line was noted: true where `may_touch` is false, but always
    /// false for the kind `Bloom`, which needs eight looks.
    pub fn never_touched(&self, line: u32) -> bool
        ensures { result ≡ is_ruled_out self.now.kind (may_touch self.now.kind self.now line) }
    {
        match self.kind {
            FilterKind::Modulo => !self.near.touched(line),
            FilterKind::Bloom => false,
            FilterKind::Exact => !self.near.touched(line),
        }
    }

    /// Whether one look at the bits rules out that the line was noted with a write: true where `may_write` is false,
    /// but always false for the kind `Bloom`, which needs eight looks.
    pub fn never_wrote(&self, line: u32) -> bool
        ensures { result ≡ is_ruled_out self.now.kind (may_write self.now.kind self.now line) }
    {
        match self.kind {
            FilterKind::Modulo => !self.near.wrote(line),
            FilterKind::Bloom => false,
            FilterKind::Exact => !self.near.wrote(line),
        }
    }

    /// Forgets all notes, and of which kind they were.
    #[tactic(auto, unfolding(crate::specs::Lines::unmarked))]
    pub fn clear(&mut self)
        ensures { self.new ≡ unmarked }
    {
        self.kind = FilterKind::Modulo;
        self.size = 0;
        self.near.clear();
        self.far.clear();
    }
}

/// Whether some line is one that the first lines may have written and the later ones may have touched. It tries the
/// numbers of all lines, in turn.
fn share_line(earlier: &Lines, later: &Lines) -> bool
    ensures { IsTrue result ↔ Meet (bits_write earlier.now) (bits_touch later.now) }
{
    for number in 0..LINES {
        let line = number as u32;
        if earlier.may_write(line) && later.may_touch(line) {
            return true;
        }
    }
    false
}

// By their bits, for each kind. Of the kind `Exact` a task asks its log too, which rules out lines that were not noted,
// and none that was.
impl Filter for Lines {
    ghost use Rattle.line_table.specs.Lines.{HasLines, bits_touch, bits_write};
    ghost use Rattle.line_table.specs.BitLaws.{noted_touched, noted_wrote, wrote_touched, cleared_touched};
    ghost use Rattle.line_table.specs.BitLaws.{cleared_wrote};

    ghost notes_are = { HasLines };

    ghost touched = { bits_touch };

    ghost wrote = { bits_write };

    ghost noted_touched = { noted_touched };

    ghost noted_wrote = { noted_wrote };

    ghost wrote_touched = { wrote_touched };

    ghost cleared_touched = { cleared_touched };

    ghost cleared_wrote = { cleared_wrote };

    // It always answers Ok, and takes no memory.
    fn note(&mut self, line: u32, write: bool) -> Result<(), AllocError>
        ensures ok { IsOk result }
        ensures noted { let note : Note = record { line = line; write = write } in
            (notes : List Note) → HasLines self.old notes → HasLines self.new (notes ++ note ∷ []) }
    {
        self.mark(self.kind, self.size, line, write);
        Ok(())
    }

    fn touched(&self, line: u32) -> bool {
        self.may_touch(line)
    }

    fn wrote(&self, line: u32) -> bool {
        self.may_write(line)
    }

    // It compares the words of two rows. A bit that a Bloom filter shares says nothing of any line, so with one of
    // these it tries the numbers of all lines.
    fn meets(&self, later: &Self) -> bool {
        if self.kind == FilterKind::Bloom || later.kind == FilterKind::Bloom {
            share_line(self, later)
        } else {
            self.near.meets(&later.near)
        }
    }

    // Unlike `Lines::clear` it leaves the kind, and how many bytes a line has.
    fn clear(&mut self)
        ensures lines { self.new ≡ unmarked_of self.old.kind self.old.size }
        ensures notes { HasLines self.new [] }
    {
        *self = Lines::of(self.kind, self.size);
    }
}

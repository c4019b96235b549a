//! Which lines a task touched and wrote: by its filter, and by its log.

ghost use Rattle.std.specs.Prelude.{◌≡◌, ◌/◌, false, List, IsTrue};
ghost use Rattle.line_table.specs.Lines.{is_ruled_out, may_touch, may_write};
ghost use Rattle.line_table.specs.Note.{touched_in, wrote_in};
ghost use Rattle.memory_law.specs.Notes.{notes_of};
ghost use Rattle.spec_state.specs.Filters.{has_touched, has_written, has_stored};

use crate::task::Task;
use line_table::FilterKind;
use undo_log::Access;

/// The line of an offset, where a line has so many bytes; 0 where it has none.
#[tactic(auto, using(crate::proofs::Touched::no_line))]
pub fn line_of(offset: u32, size: u32) -> u32
    ensures { result ≡ offset / size }
{
    if size == 0 { 0 } else { offset / size }
}

/// Whether the log has an access to the line.
fn has_access(log: &[Access], size: u32, line: u32) -> bool
    ensures { result ≡ touched_in (notes_of size log.now) line }
{
    log.iter()
        .any(|access| line_of(access.offset, size) == line)
}

/// Whether the log has a store to the line.
fn has_store(log: &[Access], size: u32, line: u32) -> bool
    ensures { result ≡ wrote_in (notes_of size log.now) line }
{
    log.iter().any(|access| access.new.is_some() && line_of(access.offset, size) == line)
}

impl Task {
    /// Whether it touched the line, by its filter. It looks at a word or at eight, and of the kind `Exact` at the
    /// log where the bits say yes.
    pub fn has_touched(&self, line: u32) -> bool
        ensures { result ≡ has_touched self.now line }
    {
        match self.lines.kind() {
            FilterKind::Modulo => self.lines.may_touch(line),
            FilterKind::Bloom => self.lines.may_touch(line),
            FilterKind::Exact => {
                self.lines.may_touch(line)
                    && has_access(self.log.accesses(), self.lines.size(), line)
            }
        }
    }

    /// Whether it wrote the line, by its filter. It costs as much.
    pub fn has_written(&self, line: u32) -> bool
        ensures { result ≡ has_written self.now line }
    {
        match self.lines.kind() {
            FilterKind::Modulo => self.lines.may_write(line),
            FilterKind::Bloom => self.lines.may_write(line),
            FilterKind::Exact => {
                self.lines.may_write(line)
                    && has_store(self.log.accesses(), self.lines.size(), line)
            }
        }
    }

    /// Whether one look at its filter rules out that it touched the line: true where the bits don't say that it may
    /// have, but always false for the kind `Bloom`, which needs eight looks.
    #[tactic(auto, using(crate::proofs::Touched::never_told))]
    pub fn never_touched(&self, line: u32) -> bool
        ensures answer { let lines = self.now.lines in
            result ≡ is_ruled_out lines.kind (may_touch lines.kind lines line) }
        ensures sound { IsTrue result → has_touched self.now line ≡ false }
    {
        self.lines.never_touched(line)
    }

    /// Whether one look at its filter rules out that it wrote the line: true where the bits don't say that it may have,
    /// but always false for the kind `Bloom`, which needs eight looks.
    #[tactic(auto, using(crate::proofs::Touched::never_told))]
    pub fn never_written(&self, line: u32) -> bool
        ensures answer { let lines = self.now.lines in
            result ≡ is_ruled_out lines.kind (may_write lines.kind lines line) }
        ensures sound { IsTrue result → has_written self.now line ≡ false }
    {
        self.lines.never_wrote(line)
    }
}

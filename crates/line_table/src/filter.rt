//! What a set of lines promises: it may say too much, but never too little.

ghost use Rattle.std.specs.Prelude.{◌≡◌, ◌↔◌, ℕ, Bool, true, false, List, [], ◌∷◌, ◌++◌, IsTrue, OnOk, OnErr};
ghost use Rattle.line_table.specs.Note.{Note, touched_in, wrote_in, Meet};

use std::alloc::AllocError;

/// The lines that a task touched, and those that it wrote. It may name lines that were not noted, but leaves none out.
pub trait Filter {
    /// Since it was last cleared these notes were made, in this order.
    ghost notes_are: { Self → List Note → Type 0 };

    /// Whether it answers that a line may have been noted.
    ghost touched: { Self → ℕ → Bool };

    /// Whether it answers that a line may have been noted with a write.
    ghost wrote: { Self → ℕ → Bool };

    /// Notes an access to the line, which is a store if `write` is true. It alone may take memory.
    fn note(&mut self, line: u32, write: bool) -> Result<(), AllocError>
        ensures noted { OnOk result ((notes : List Note)
            → notes_are self.old notes → notes_are self.new (notes ++ record { line = line; write = write } ∷ [])) }
        ensures err { OnErr result (self.new ≡ self.old) };

    /// Whether the line may have been noted.
    fn touched(&self, line: u32) -> bool
        ensures { result ≡ touched self.now line };

    /// Whether the line may have been noted with a write.
    fn wrote(&self, line: u32) -> bool
        ensures { result ≡ wrote self.now line };

    /// Whether some line is one that this filter wrote and the later one touched, by their answers. The machine doesn't
    /// call it: it asks a later task's filter of each line to which a log has a store.
    fn meets(&self, later: &Self) -> bool
        ensures { IsTrue result ↔ Meet (wrote self.now) (touched later.now) };

    /// Forgets all notes.
    fn clear(&mut self)
        ensures { notes_are self.new [] };

    /// A noted line is touched.
    ghost noted_touched: { (filter : Self) (notes : List Note) (line : ℕ)
        → notes_are filter notes → touched_in notes line ≡ true → touched filter line ≡ true };

    /// A line noted with a write is wrote.
    ghost noted_wrote: { (filter : Self) (notes : List Note) (line : ℕ)
        → notes_are filter notes → wrote_in notes line ≡ true → wrote filter line ≡ true };

    /// What is wrote is touched.
    ghost wrote_touched: { (filter : Self) (notes : List Note) (line : ℕ)
        → notes_are filter notes → wrote filter line ≡ true → touched filter line ≡ true };

    /// A cleared filter answers of no line that it is touched.
    ghost cleared_touched: { (filter : Self) (line : ℕ) → notes_are filter [] → touched filter line ≡ false };

    /// A cleared filter answers of no line that it is wrote.
    ghost cleared_wrote: { (filter : Self) (line : ℕ) → notes_are filter [] → wrote filter line ≡ false };
}

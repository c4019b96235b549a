//! A filter of fixed size. Tasks keep two in their `Lines`; as a filter of its own it is library.

ghost use Rattle.std.specs.Prelude.{◌≡◌, ◌↔◌, true, false, List, [], ◌∷◌, ◌++◌, IsTrue, IsOk, OnOk, OnErr};
ghost use Rattle.line_table.specs.Note.{Note, Meet};
ghost use Rattle.line_table.specs.Signature.{IsSignature, touched_of, wrote_of, touched_beside, wrote_beside};
ghost use Rattle.line_table.specs.Signature.{no_lines, meets_of};
ghost use Rattle.line_table.specs.SignatureLaws.{SignaturesAgree};

use crate::Filter;
use crate::row::BitRow;
use std::alloc::AllocError;

/// Which remainders modulo 1,024 the noted lines have, and which the lines noted with a write. It
/// has no model, so that it is `Copy` with no proof.
#[derive(Clone, Copy)]
pub struct Signature {
    touched: BitRow,
    wrote: BitRow,
}

impl Signature {
    /// A signature with no notes. It takes no memory.
    #[tactic(auto, using(crate::specs::SignatureLaws::is_signature_of_none), unfolding(crate::specs::Signature::no_lines))]
    pub const fn new() -> Self
        ensures lines { result ≡ no_lines }
        ensures notes { IsSignature result [] }
    {
        Signature {
            touched: BitRow::new(),
            wrote: BitRow::new(),
        }
    }

    /// Notes an access to the line, which is a store if `write` is true. It takes no memory.
    pub fn mark(&mut self, line: u32, write: bool)
        ensures { let note : Note = record { line = line; write = write } in
            (notes : List Note) → IsSignature self.old notes → IsSignature self.new (notes ++ note ∷ []) }
    {
        self.touched.set(line);
        if write {
            self.wrote.set(line);
        }
    }
}

/// Law: two signatures that have the same notes, in whatever order and however often, answer alike; no
/// other filter has to.
pub fn signatures_agree()
    ensures { SignaturesAgree }
{}

impl Filter for Signature {
    ghost use Rattle.line_table.specs.Signature.{IsSignature, touched_of, wrote_of};
    ghost use Rattle.line_table.specs.SignatureLaws.{noted_touched, noted_wrote, wrote_touched, cleared_touched};
    ghost use Rattle.line_table.specs.SignatureLaws.{cleared_wrote};

    ghost notes_are = { IsSignature };

    ghost touched = { touched_of };

    ghost wrote = { wrote_of };

    ghost noted_touched = { noted_touched };

    ghost noted_wrote = { noted_wrote };

    ghost wrote_touched = { wrote_touched };

    ghost cleared_touched = { cleared_touched };

    ghost cleared_wrote = { cleared_wrote };

    // It always answers Ok, and takes no memory.
    fn note(&mut self, line: u32, write: bool) -> Result<(), AllocError>
        ensures ok { IsOk result }
        ensures noted { let note : Note = record { line = line; write = write } in
            (notes : List Note) → IsSignature self.old notes → IsSignature self.new (notes ++ note ∷ []) }
    {
        self.mark(line, write);
        Ok(())
    }

    fn touched(&self, line: u32) -> bool
        ensures answer { result ≡ touched_of self.now line }
        ensures beside { (notes : List Note) → IsSignature self.now notes → result ≡ touched_beside notes line }
    {
        self.touched.is_set(line)
    }

    fn wrote(&self, line: u32) -> bool
        ensures answer { result ≡ wrote_of self.now line }
        ensures beside { (notes : List Note) → IsSignature self.now notes → result ≡ wrote_beside notes line }
    {
        self.wrote.is_set(line)
    }

    // It compares the words of the two rows, at most sixteen pairs.
    fn meets(&self, later: &Self) -> bool
        ensures meet { IsTrue result ↔ Meet (wrote_of self.now) (touched_of later.now) }
        ensures answer { result ≡ meets_of self.now later.now }
    {
        self.wrote.meets(&later.touched)
    }

    fn clear(&mut self)
        ensures lines { self.new ≡ no_lines }
        ensures notes { IsSignature self.new [] }
    {
        *self = Signature::new();
    }
}

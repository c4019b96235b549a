//! A filter that answers for noted lines alone. It is library: the machine's exact filters are `Lines` beside a log.

ghost use Rattle.std.specs.Prelude.{◌≡◌, true, false, List, [], ◌∷◌, ◌++◌, OnOk, OnErr};
ghost use Rattle.line_table.specs.Note.{Note, touched_in, wrote_in};
ghost use Rattle.line_table.specs.Exact.{IsExact, touched_of, wrote_of};

use crate::Filter;
use std::alloc::{AllocError, Global};
use std::collections::BTreeMap;
use std::marker::Model;

/// The lines that were noted, each with whether it was written.
#[derive(Drop)]
pub struct Exact {
    lines: BTreeMap<u32, bool>,
}

impl Model for Exact {
    ghost use Rattle.std.specs.Prelude.{List, ℕ, Bool};

    ghost Value = { List (ℕ × Bool) };

    ghost view = { λ exact. exact.lines.entries };
}

impl Exact {
    /// A filter with no notes, which grows in `alloc`.
    pub fn new(alloc: Global) -> Self
        ensures lines { result ≡ [] }
        ensures notes { IsExact result [] }
    {
        Exact {
            lines: BTreeMap::new(alloc),
        }
    }
}

impl Filter for Exact {
    ghost use Rattle.line_table.specs.Exact.{IsExact, touched_of, wrote_of};
    ghost use Rattle.line_table.specs.Laws.{noted_touched, noted_wrote, wrote_touched, cleared_touched, cleared_wrote};

    ghost notes_are = { IsExact };

    ghost touched = { touched_of };

    ghost wrote = { wrote_of };

    ghost noted_touched = { noted_touched };

    ghost noted_wrote = { noted_wrote };

    ghost wrote_touched = { wrote_touched };

    ghost cleared_touched = { cleared_touched };

    ghost cleared_wrote = { cleared_wrote };

    fn note(&mut self, line: u32, write: bool) -> Result<(), AllocError> {
        let wrote = self.lines.entry(line)?.or_insert(false);
        *wrote |= write;
        Ok(())
    }

    // It answers true for noted lines alone.
    fn touched(&self, line: u32) -> bool
        ensures answer { result ≡ touched_of self.now line }
        ensures exact { (notes : List Note) → IsExact self.now notes → result ≡ touched_in notes line }
    {
        self.lines.contains_key(&line)
    }

    // It answers true for lines noted with a write alone.
    fn wrote(&self, line: u32) -> bool
        ensures answer { result ≡ wrote_of self.now line }
        ensures exact { (notes : List Note) → IsExact self.now notes → result ≡ wrote_in notes line }
    {
        self.lines.get(&line).copied().unwrap_or(false)
    }

    // It looks up each line that it wrote.
    fn meets(&self, later: &Self) -> bool {
        self.lines
            .iter()
            .any(|(line, wrote)| *wrote && later.lines.contains_key(line))
    }

    fn clear(&mut self)
        ensures lines { self.new ≡ [] }
        ensures notes { IsExact self.new [] }
    {
        self.lines.clear();
    }
}

//! The board, its writer and its readers.

ghost use Rattle.std.specs.Prelude.{◌≡◌, [], ◌∷◌, ◌++◌, IfOk};
ghost use Rattle.progress_cell.specs.Readings.{IsAtMost, StandsIn, last_of, opening_reading};

use crate::reading::Reading;
use crate::steps::{Begin, Confirm, Leave, Rises, See, Store, TakeIn};
use crate::view::PassView;
use crossbeam_utils::atomic::seq_cell::{Pass, RuledSeqCell};
use std::alloc::{AllocError, Global};
use std::marker::Model;
use std::sync::Wait;

/// Two words that hold the last reading that was written. Threads share it by reference, or in an `Arc`.
///
/// Contracts see which board it is: a writer belongs to the board that it was made with, and a reader to that of the
/// writer or the reader that it came from. Each call takes only what belongs to its board.
#[derive(Drop)]
pub struct Board {
    cell: RuledSeqCell<[u64; 2], PassView, Rises, 2>,
}

impl Model for Board {
    ghost use Rattle.atomic_table.specs.Seated.{TableId};

    ghost Value = { TableId };

    ghost view = { λ board. board.cell.table.shared.table_id };
}

/// The right to write readings on one board, which has one writer. Contracts see all readings that it wrote (`told`): a
/// list that needs no memory. It may go to another thread.
#[derive(Drop)]
pub struct Writer {
    pass: Pass<[u64; 2], PassView>,
    last: Reading,
}

impl Model for Writer {
    ghost use Rattle.crossbeam_utils.specs.Seq.{cell_view};
    ghost use Rattle.progress_cell.specs.Board.{WriterValue, IsWriter};
    ghost use Rattle.progress_cell.specs.Rule.{readings_of};

    ghost Value = { WriterValue };

    ghost view = { λ writer. record { board = writer.pass.table_id; told = readings_of (cell_view writer.pass) } };

    ghost invariant = { λ writer. IsWriter (cell_view writer.pass) writer.last };
}

impl Writer {
    /// The last reading that was written; for a new writer no commits and no output. Looks at no word of the board.
    pub fn last(&self) -> Reading
        ensures { result ≡ last_of self.now.told }
    {
        self.last
    }
}

/// The right to read one board. Contracts see all readings that it saw (`seen`), of which the first is one that its
/// writer had written when it was made: a list that needs no memory. It may go to another thread.
#[derive(Drop)]
pub struct Reader {
    pass: Pass<[u64; 2], PassView>,
}

impl Model for Reader {
    ghost use Rattle.crossbeam_utils.specs.Seq.{cell_view};
    ghost use Rattle.progress_cell.specs.Board.{ReaderValue, IsReader};
    ghost use Rattle.progress_cell.specs.Rule.{readings_of};

    ghost Value = { ReaderValue };

    ghost view = { λ reader. record { board = reader.pass.table_id; seen = readings_of (cell_view reader.pass) } };

    ghost invariant = { λ reader. IsReader (cell_view reader.pass) };
}

impl Board {
    /// A board with its writer, whose first reading is that nothing is committed and nothing emitted. It allocates all
    /// its memory here, and an error is want of that and nothing else.
    pub fn new(alloc: Global) -> Result<(Board, Writer), AllocError>
        ensures belongs { IfOk result (λ made. made.1.board ≡ made.0) }
        ensures told { IfOk result (λ made. made.1.told ≡ opening_reading ∷ []) }
    {
        let (cell, pass) = RuledSeqCell::ruled(alloc, [0, 0])?;
        let last = Reading {
            commits: 0,
            output: 0,
        };
        Ok((Board { cell }, Writer { pass, last }))
    }

    /// Writes a reading, neither number of which may be below that of the last one. Costs 7 atomic operations on the
    /// words, and waits while a reader that was overtaken holds them.
    pub fn publish<R: Wait>(&self, rt: &R, writer: &mut Writer, reading: Reading)
        requires belongs { writer.old.board ≡ self.now }
        requires rises { IsAtMost (last_of writer.old.told) reading }
        ensures told { writer.new ≡ record writer.old { told = writer.old.told ++ reading ∷ [] } }
    {
        let words = [reading.commits as u64, reading.output];
        self.cell.swap_as::<Store, R>(rt, &mut writer.pass, words);
        writer.last = reading;
    }

    /// A new reader, which has seen the last reading that was written. Costs one atomic operation, and never waits.
    pub fn reader(&self, writer: &mut Writer) -> Reader
        requires belongs { writer.old.board ≡ self.now }
        ensures belongs { result.board ≡ self.now }
        ensures seen { result.seen ≡ last_of writer.old.told ∷ [] }
        ensures stays { writer.new ≡ writer.old }
    {
        Reader {
            pass: self.cell.split_pass::<Begin>(&mut writer.pass),
        }
    }

    /// The reading on the board at some time in the call. Neither number is below that of the last one that this reader
    /// saw. Costs 4 atomic operations; where a reading is written meanwhile, it waits for the words and then holds
    /// them.
    pub fn read<R: Wait>(&self, rt: &R, reader: &mut Reader) -> Reading
        requires belongs { reader.old.board ≡ self.now }
        ensures seen { reader.new ≡ record reader.old { seen = reader.old.seen ++ result ∷ [] } }
        ensures rises { IsAtMost (last_of reader.old.seen) result }
    {
        let words = self.cell.load_as::<See, R>(rt, &mut reader.pass);
        Reading {
            commits: words[0] as u32,
            output: words[1],
        }
    }

    /// Another reader, which has seen the last reading that this one saw. Costs one atomic operation, and never waits.
    pub fn split(&self, reader: &mut Reader) -> Reader
        requires belongs { reader.old.board ≡ self.now }
        ensures belongs { result.board ≡ self.now }
        ensures seen { result.seen ≡ last_of reader.old.seen ∷ [] }
        ensures stays { reader.new ≡ reader.old }
    {
        Reader {
            pass: self.cell.split_pass::<Begin>(&mut reader.pass),
        }
    }

    /// Takes a reader in, and ensures that whatever it saw was written, in this order: `told` contains each reading
    /// that it saw, at places that never fall. Costs 6 atomic operations, and waits as `read` does.
    pub fn join<R: Wait>(&self, rt: &R, writer: &mut Writer, reader: Reader)
        requires writer_belongs { writer.old.board ≡ self.now }
        requires reader_belongs { reader.board ≡ self.now }
        ensures stands { StandsIn reader.seen writer.new.told }
        ensures stays { writer.new ≡ writer.old }
    {
        // A pass that has read can't be joined; one that was just split off can. The reader's whole view goes there.
        let Reader { mut pass } = reader;
        let whole = self.cell.split_pass::<Leave>(&mut pass);
        self.cell.join_pass::<TakeIn>(&mut writer.pass, whole);
        // A load returns what the rule says of the lists that the writer took in.
        self.cell.load_as::<Confirm, R>(rt, &mut writer.pass);
    }
}

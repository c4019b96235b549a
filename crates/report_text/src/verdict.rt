//! What checking a report finds.

use crate::serial_machine::{Serial, TurnFault};

/// Whether a report is that of a run.
#[derive(Clone, Copy, Debug, PartialEq, Eq)]
pub enum Verdict {
    /// It is.
    Yes,
    /// This line of the report, counted from 1, is the first that isn't the run's.
    Illegal {
        /// The number of the line, from 1 on.
        line: u32,
        /// Why the serial machine refuses the turn, where the line is an entry up to the commit limit that isn't a
        /// legal turn. One of the causes that hold: of two smaller timestamps it may name either.
        why: Option<TurnFault>,
    },
    /// Out of memory.
    Memory,
}

/// A verdict, with the machine at the end of the run where the report is that of a run.
#[derive(Drop)]
pub enum Examined {
    /// The report is that of a run, which led to this machine.
    Yes(Serial),
    /// As in [`Verdict::Illegal`].
    Illegal {
        /// The number of the line, from 1 on.
        line: u32,
        /// Why the turn is refused, as in [`Verdict::Illegal`].
        why: Option<TurnFault>,
    },
    /// Out of memory.
    Memory,
}

/// Why the entries of a report aren't a run.
#[derive(Clone, Copy, Debug, PartialEq, Eq)]
pub(crate) enum NoRun {
    Line { line: u32, why: Option<TurnFault> },
    Memory,
}

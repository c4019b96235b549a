//! What is printed of a run.

ghost use Rattle.std.specs.Prelude.{◌≡◌};
ghost use Rattle.watch_play.specs.Texts.{are_counts_due, has_counts, has_lines};

/// What is printed of a run.
#[derive(Clone, Copy, Debug, PartialEq, Eq)]
pub enum Telling {
    /// A line for each moment.
    Lines,
    /// A line for each log entry, and the view after each K-th of them, K at least 1.
    Views(u32),
    /// No line: nothing but, at the end, the memory that the run leaves.
    Memory,
    /// No line of a log entry: the counts, at the end, and after each K-th round, or log entry where the driver has no
    /// rounds. With 0 only at the end.
    Counts(u32),
}

/// Whether lines are printed.
pub(crate) fn has_lines(telling: Telling) -> bool
    ensures { result ≡ has_lines telling }
{
    match telling {
        Telling::Lines => true,
        Telling::Views(_) => true,
        Telling::Memory => false,
        Telling::Counts(_) => false,
    }
}

/// Whether counts are printed.
pub(crate) fn has_counts(telling: Telling) -> bool
    ensures { result ≡ has_counts telling }
{
    match telling {
        Telling::Lines => false,
        Telling::Views(_) => false,
        Telling::Memory => false,
        Telling::Counts(_) => true,
    }
}

/// Whether counts are printed after the round of this number, or log entry where the driver has no rounds.
pub(crate) fn are_counts_due(telling: Telling, number: u64) -> bool
    ensures { result ≡ are_counts_due telling number }
{
    match telling {
        Telling::Lines => false,
        Telling::Views(_) => false,
        Telling::Memory => false,
        Telling::Counts(each) => each != 0 && number % u64::from(each) == 0,
    }
}

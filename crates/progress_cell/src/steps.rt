//! The rule of a board's cell, and the names of its six operations, which calls of the cell take: a store by the
//! writer's pass, a load by a reader's, a load by the writer's, making a reader's pass, handing one over whole, and
//! taking one in. What they do is said here or in `specs/Steps`.

ghost use Rattle.std.specs.Prelude.{[], ◌∷◌};
ghost use Rattle.progress_cell.specs.Readings.{opening_reading};
ghost use Rattle.progress_cell.specs.Rule.{RuleHolds};
ghost use Rattle.progress_cell.specs.Steps.{PassStores, PassSees, PassConfirms, new_reader, with_joined};
ghost use Rattle.progress_cell.specs.declared.view.PassView.TheVariants.{Writes, Spent};

use crate::view::PassView;
use atomic_table::{Join, Split};
use crossbeam_utils::rule::{Outcome, Protocol};

/// What always holds of the words and of what passes know.
pub struct Rises;

impl Protocol<[u64; 2], PassView> for Rises {
    ghost holds = { RuleHolds };

    ghost first = { Writes (opening_reading ∷ []) [] };
}

/// A store by the writer's pass: it writes a reading.
pub(crate) struct Store;

impl Outcome<[u64; 2], PassView> for Store {
    ghost then = { PassStores };
}

/// A load by a reader's pass: it sees a reading.
pub(crate) struct See;

impl Outcome<[u64; 2], PassView> for See {
    ghost then = { PassSees };
}

/// A load by the writer's pass: it confirms that what it took in was written.
pub(crate) struct Confirm;

impl Outcome<[u64; 2], PassView> for Confirm {
    ghost then = { PassConfirms };
}

/// Making a reader's pass of the writer's, or splitting one from another reader's.
pub(crate) struct Begin;

impl Split<PassView> for Begin {
    ghost left = { λ v. v };

    ghost right = { new_reader };
}

/// Splitting a reader's pass so that all that it knows goes over: what is left is spent.
pub(crate) struct Leave;

impl Split<PassView> for Leave {
    ghost left = { λ _. Spent };

    ghost right = { λ v. v };
}

/// Joining a reader's pass to the writer's: what is left of it is spent.
pub(crate) struct TakeIn;

impl Join<PassView> for TakeIn {
    ghost both = { with_joined };

    ghost spent = { Spent };
}

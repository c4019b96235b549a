//! A run that is watched.

ghost use Rattle.std.specs.Prelude.{◌≡◌, []};
ghost use Rattle.watch_counts.specs.conflict_book.BookViews.{machine_view};
ghost use Rattle.watch_counts.specs.Capped.{capped_counts};
ghost use Rattle.watch_counts.specs.Counts.{counts_at};

use crate::conflict_book::Book;
use crate::step_script::Player;
use crate::telling::Telling;
use guest_image::Image;
use place_policy::Placer;
use rv_core::Naming;
use std::alloc::Global;
use trace_tap::Tap;
use watch_counts::Counts;

/// What plays: a book, and the player of its acts.
#[derive(Drop)]
pub struct Play<N: Naming, P: Placer, T: Tap> {
    /// The book.
    pub book: Book<N, P, T>,
    /// The player of its acts.
    pub player: Player<N>,
}

/// How much was printed so far.
#[derive(Clone, Copy, Debug, PartialEq, Eq)]
pub struct SoTold {
    /// How many moments there were.
    pub moments: u64,
    /// What was counted of them, where counts are printed.
    pub counts: Counts,
}

/// What prints: the line that is being made, and how much was printed.
#[derive(Drop)]
pub struct Printer {
    /// The line that is put together.
    pub line: String,
    /// How much was printed.
    pub told: SoTold,
}

/// A run that is watched: what plays it, what prints it, and what is printed of it.
#[derive(Drop)]
pub struct Watch<N: Naming, P: Placer, T: Tap> {
    /// What plays.
    pub play: Play<N, P, T>,
    /// What prints.
    pub printer: Printer,
    /// What is printed of the run.
    pub telling: Telling,
}

impl<N: Naming, P: Placer, T: Tap> Watch<N, P, T> {
    /// A book that is to be watched, for which no leg is held. It takes no memory.
    pub fn new(alloc: Global, image: &Image, book: Book<N, P, T>, telling: Telling) -> Self
        requires image { image.now ≡ N.image }
        ensures book { result.play.book ≡ book }
        ensures held { result.play.player.held ≡ [] }
        ensures telling { result.telling ≡ telling }
        ensures moments { result.printer.told.moments ≡ 0 }
        ensures counts { result.printer.told.counts ≡ capped_counts (counts_at (machine_view book)) }
    {
        let player = Player::new(alloc, image, &book);
        let counts = Counts::new(book.state());
        Watch {
            play: Play { book, player },
            printer: Printer {
                line: String::new(alloc),
                told: SoTold { moments: 0, counts },
            },
            telling,
        }
    }
}

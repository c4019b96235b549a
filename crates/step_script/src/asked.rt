//! What an act requests of the book.

use crate::event_def::Reply;
use conflict_book::Legless;

/// What an act requests of the book.
#[derive(Clone, Copy, Debug, PartialEq, Eq)]
pub enum Asked {
    /// This event is made.
    Legless(Legless),
    /// The leg that is ready is used for a core.
    Ready {
        /// The tile.
        tile: u32,
        /// The core, among those of the tile.
        core: u32,
    },
    /// No event is made, and this is the reply.
    Says(Reply),
}

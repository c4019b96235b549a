//! Events that take no leg.

/// An event that takes no leg: each but a step. It is handed in without the bytes that an event has for a leg.
#[derive(Clone, Copy, Debug, PartialEq, Eq)]
pub enum Legless {
    /// The least idle task of a tile goes to its lowest free core.
    Dispatch {
        /// The tile.
        tile: u32,
    },
    /// The latest dispatched task of a tile is aborted.
    Abort {
        /// The tile.
        tile: u32,
    },
    /// The least task, where it is finished, commits.
    Commit,
    /// The latest idle firm tasks of a tile are spilled.
    Coalesce {
        /// The tile.
        tile: u32,
    },
    /// The least spilled task of a tile comes back.
    Split {
        /// The tile.
        tile: u32,
    },
}

//! Bags of pending tasks.

use guest_image::Kind;
use pending_list::PendingList;

/// The pending tasks of one domain.
#[derive(Drop)]
pub(crate) struct Bag {
    /// The depth of the domain.
    pub depth: u8,
    /// Whether its timestamps count.
    pub kind: Kind,
    /// The timestamp of the task that made the domain; 0 for the root domain.
    pub floor: u32,
    /// The commit number of the task that made the domain; 0 for the root domain.
    pub owner: u32,
    /// Its tasks; further ones join at the end.
    pub tasks: PendingList,
}

//! What a pass of the cell knows.

use crate::reading::Reading;
use std::collections::LinkedList;

/// What a pass knows. Contracts alone see it: no value of it is made.
pub enum PassView {
    /// The writer's: the readings that it wrote, and the lists of the readers that it took in.
    Writes(LinkedList<Reading>, LinkedList<LinkedList<Reading>>),
    /// A reader's: the readings that it saw.
    Reads(LinkedList<Reading>),
    /// What is left of a reader that was joined.
    Spent,
}

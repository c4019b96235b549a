//! What a worker carries from one hold of the lock to the next.

use crate::round::Round;

/// A worker's part of the events, what it keeps for itself, and its errand. `W` is the part and `H` the errand, since
/// the trait of locks can't name their types.
#[derive(Drop)]
pub(crate) struct Carried<W, H> {
    pub(crate) part: W,
    pub(crate) round: Round,
    pub(crate) errand: H,
}

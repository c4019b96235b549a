//! A task in an index, and the order of such candidates.

ghost use Rattle.std.specs.Prelude.{◌≡◌};
ghost use Rattle.std.specs.List.Sorted.{IsStrictlyIncreasing};
ghost use Rattle.commit_arbiter.specs.Indexed.{candidate_cmp, renumbered_candidate, one_closed};
ghost use Rattle.commit_arbiter.specs.Slots.{blank_candidate};

use fractal_vt::{Key, cmp, renumber_key};
use std::cmp::Ordering;

/// A task in an index.
#[derive(Drop)]
pub struct Candidate {
    /// Its key.
    pub key: Key,
    /// The tile in whose queue it stands.
    pub tile: u32,
    /// The number of its arrival there.
    pub arrival: u64,
    /// Its id, by which it is found again.
    pub id: usize,
}

/// The order of candidates: by key, then by tile, by arrival and by id.
pub(crate) fn candidate_order(a: &Candidate, b: &Candidate) -> Ordering
    ensures { result ≡ candidate_cmp a.now b.now }
{
    match cmp(&a.key, &b.key) {
        Ordering::Equal => a
            .tile
            .cmp(&b.tile)
            .then(a.arrival.cmp(&b.arrival))
            .then(a.id.cmp(&b.id)),
        order => order,
    }
}

/// The contents of a slot that was never used.
pub(crate) fn blank_candidate() -> Candidate
    ensures { result ≡ blank_candidate }
{
    Candidate {
        key: Key::root(0),
        tile: 0,
        arrival: 0,
        id: 0,
    }
}

/// Makes a candidate that of a task, in its place.
pub(crate) fn put_candidate(
    candidate: &mut Candidate,
    key: &Key,
    tile: u32,
    arrival: u64,
    id: usize,
)
    ensures { candidate.new ≡ record { key = key.now; tile = tile; arrival = arrival; id = id } }
{
    candidate.key.put(key);
    candidate.tile = tile;
    candidate.arrival = arrival;
    candidate.id = id;
}

/// 1 where the tiebreaker is closed, and 0 where it is open.
pub(crate) fn one_closed(tb: Option<u64>) -> usize
    ensures { result ≡ one_closed tb }
{
    if tb.is_some() { 1 } else { 0 }
}

/// Replaces each tiebreaker of the key by its place in the table.
pub(crate) fn renumber_candidate(candidate: &mut Candidate, table: &[u64])
    requires { IsStrictlyIncreasing table.now }
    ensures { candidate.new ≡ renumbered_candidate table.now candidate.old }
{
    candidate.key = renumber_key(&candidate.key, table);
}

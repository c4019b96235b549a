//! Rounds of an index.

ghost use Rattle.std.specs.Prelude.{◌<◌, ◌≤◌};

use crate::keys::{key_at, scrambled_number};
use commit_arbiter::Index;
use fractal_vt::Key;
use std::alloc::{AllocError, Global};

/// Fills an index, and then takes out a task by any id and puts one in with that id, so many times. Gives the id
/// that is first at the end.
pub(crate) fn by_id(alloc: Global, size: u32, rounds: u32) -> Result<u64, AllocError>
    requires { 1 ≤ size }
{
    let mut index = full_index(alloc, size)?;
    for round in 0..rounds {
        let id = (scrambled_number(round) % size) as usize;
        let ts = scrambled_number(round ^ 0x55) >> 12;
        renew(&mut index, &key_at(round, ts), round as u64, id);
    }
    Ok(first_of(&index))
}

/// Fills an index, and then takes out the first task and puts one in with its id, so many times. Gives the id that
/// is first at the end.
pub(crate) fn by_first(alloc: Global, size: u32, rounds: u32) -> Result<u64, AllocError>
    requires { 1 ≤ size }
{
    let mut index = full_index(alloc, size)?;
    for round in 0..rounds {
        if let Some(id) = index.first() {
            renew(
                &mut index,
                &key_at(round, 1_000_000 + round / 4),
                round as u64,
                id,
            );
        }
    }
    Ok(first_of(&index))
}

/// An index of so many tasks.
fn full_index(alloc: Global, size: u32) -> Result<Index, AllocError>
    requires { 1 ≤ size }
{
    let mut index = Index::new(alloc, size)?;
    for id in 0..size {
        let ts = scrambled_number(id) >> 12;
        renew(&mut index, &key_at(id, ts), id as u64, id as usize);
    }
    Ok(index)
}

/// Puts a task in, in the place of the one with its id if there is one.
fn renew(index: &mut Index, key: &Key, arrival: u64, id: usize) {
    let _found = index.remove(id);
    if index.len() < index.capacity() {
        index.insert(key, 0, arrival, id);
    }
}

/// The id that is first, and 0 where there is none.
fn first_of(index: &Index) -> u64 {
    match index.first() {
        Some(id) => id as u64,
        None => 0,
    }
}

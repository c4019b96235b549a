//! Rounds of a block.

ghost use Rattle.std.specs.Prelude.{◌≡◌};
ghost use Rattle.task_desc.specs.Record.{IsDesc};

use crate::keys::scrambled_number;
use fractal_vt::Vt;
use spill_store::Block;
use std::alloc::{AllocError, Global};
use task_desc::{Desc, Name};

/// Pushes so many tasks into a block and takes them all out again, so many times. Gives the last timestamp that
/// came out.
pub(crate) fn fill_and_empty(alloc: Global, size: u32, rounds: u32) -> Result<u64, AllocError> {
    let mut block = Block::new(alloc);
    let mut last = 0;
    for round in 0..rounds {
        for number in 0..size {
            block.reserve(1)?;
            block.push(
                &task_at(number, scrambled_number(number ^ round)),
                &Vt::empty(),
            );
        }
        for _number in 0..size {
            if let Some((desc, _)) = block.take_least() {
                last = desc.ts as u64;
            }
        }
    }
    Ok(last)
}

/// A task of the root domain.
fn task_at(index: u32, ts: u32) -> Desc
    ensures { IsDesc result × (result.depth ≡ 1) }
{
    Desc {
        name: Name { creator: 0, index },
        entry: 0x0001_0000,
        ts,
        args: [0; 3],
        hint: 0,
        depth: 1,
        kinds: 1,
    }
}

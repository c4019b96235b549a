//! Works one part of the machine for so many rounds, so that `bench/run` can time it by the difference of two runs: an
//! index that tasks leave and enter, or a block that is filled and emptied. What it prints is the same at each run.
//!
//! It stands on the index and the block. A round costs one removal and one insertion in an index, or a block of that
//! size that is filled and emptied.
#![tactic(auto)]

ghost use Rattle.std.specs.Prelude.{◌≤◌, IfSome};

mod blocks;
mod indexes;
mod keys;

use std::{env, io};

/// What the words may be.
const USAGE: &str = "index ids SIZE ROUNDS, index first SIZE ROUNDS, or block SIZE ROUNDS";

fn main(rt: HostRuntime) -> io::Result<()> {
    let mut words = Vec::new(rt.alloc());
    for word in env::args(&rt)? {
        words.push(word)?;
    }
    let mut texts = Vec::new(rt.alloc());
    for word in &words {
        texts.push(word.as_str())?;
    }
    match answer(&rt, &texts)? {
        Some(number) => println!(rt; "{number}"),
        None => println!(rt; "{USAGE}"),
    }
}

/// What the rounds that the words ask for leave, as one number; None where they ask for none.
fn answer<R: AllocGlobal>(rt: &R, words: &[&str]) -> io::Result<Option<u64>> {
    match words {
        [_, "index", "ids", size, rounds] => match numbers(size, rounds) {
            Some((size, rounds)) => Ok(Some(indexes::by_id(rt.alloc(), size, rounds)?)),
            None => Ok(None),
        },
        [_, "index", "first", size, rounds] => match numbers(size, rounds) {
            Some((size, rounds)) => Ok(Some(indexes::by_first(rt.alloc(), size, rounds)?)),
            None => Ok(None),
        },
        [_, "block", size, rounds] => match numbers(size, rounds) {
            Some((size, rounds)) => Ok(Some(blocks::fill_and_empty(rt.alloc(), size, rounds)?)),
            None => Ok(None),
        },
        _ => Ok(None),
    }
}

/// A size of at least 1, and a number of rounds.
fn numbers(size: &str, rounds: &str) -> Option<(u32, u32)>
    ensures { IfSome result (λ pair. 1 ≤ pair.0) }
{
    let size = size.parse::<u32>().ok()?;
    let rounds = rounds.parse::<u32>().ok()?;
    if size == 0 {
        None
    } else {
        Some((size, rounds))
    }
}

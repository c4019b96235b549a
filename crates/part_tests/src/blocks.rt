//! The block of spilled tasks, by spill_store.

ghost use Rattle.std.specs.Prelude.{◌≡◌};
ghost use Rattle.task_desc.specs.Record.{IsDesc};

use crate::sending::is_sent;
use fractal_vt::Vt;
use spill_store::Block;
use std::alloc::{AllocError, Global};
use std::test::Fail;
use task_desc::{Desc, Name};

/// A task of the root domain.
fn root_task(creator: u32) -> Desc
    ensures { IsDesc result × (result.depth ≡ 1) }
{
    Desc {
        name: Name { creator, index: 0 },
        entry: 0x0001_0000,
        ts: 5,
        args: [1, 2, 3],
        hint: 0,
        depth: 1,
        kinds: 1,
    }
}

#[test]
fn an_empty_block_gives_no_task(rt: HostRuntime) {
    let mut block = Block::new(rt.alloc());
    assert!(rt; block.least_key().is_none() && block.take_least().is_none());
    is_sent(&block);
}

/// A block of two tasks that differ by their creators alone.
fn two_tasks(alloc: Global) -> Result<Block, AllocError> {
    let mut block = Block::new(alloc);
    block.reserve(2)?;
    block.push(&root_task(1), &Vt::empty());
    block.push(&root_task(2), &Vt::empty());
    Ok(block)
}

#[test]
fn tasks_that_differ_by_name_only_both_come_back(rt: HostRuntime) -> Result<(), Fail> {
    let mut block = two_tasks(rt.alloc())?;
    for creator in 1..3 {
        let (desc, domain) = block.take_least().ok_or("a task is left")?;
        assert_eq!(rt; desc, root_task(creator));
        assert!(rt; domain.levels().is_empty());
    }
    assert!(rt; block.is_empty());
    Ok(())
}

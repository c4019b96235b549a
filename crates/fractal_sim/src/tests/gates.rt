//! A gate shows that two workers run at once: in each of two runs one of them waits for the other.

use crate::tests::images::ENDING;
use crate::tests::{Case, holds_with};
use crate::tile_worker::Gate;
use std::alloc::{Alloc, Global};
use std::process::Abort;
use std::sync::Wait;
use std::sync::atomic::{AtomicU64, Ordering};
use std::test::Fail;
use std::thread::Threads;

/// How often a gate looks whether another worker has passed before it gives up.
const LOOKS: u32 = 200_000_000;

/// Holds the first leg of one worker until another worker has passed.
#[derive(Drop)]
struct HoldingGate {
    held: u32,
    passed: AtomicU64,
    gave_up: AtomicU64,
}

impl HoldingGate {
    /// Waits for another worker, but not forever.
    fn hold(&self) {
        for _ in 0..LOOKS {
            if self.passed.load(Ordering::SeqCst) == 1 {
                return;
            }
        }
        self.gave_up.store(1, Ordering::SeqCst);
    }
}

impl Gate for HoldingGate {
    fn pass(&self, worker: u32, leg: u64) {
        if worker != self.held {
            self.passed.store(1, Ordering::SeqCst);
        } else if leg == 1 {
            self.hold();
        }
    }
}

const HELD: Case = Case {
    words: "run --tiles 2 --cores 1 --workers 2",
    read: (ENDING, ""),
    written: (
        "",
        "fractal 1\n1 0.0 1 1\n2 0.1 1 2\noutput -\nend normal\n",
    ),
    left: (0, "normal", 2, None),
};

/// Two tasks are run by two workers, the first leg of one of which is held until the other one has passed.
fn other_passes(
    rt: &(impl Abort + Alloc<A = Global> + Threads + Wait + Sync),
    held: u32,
) -> Result<(), Fail> {
    let alloc = rt.alloc();
    let gate = HoldingGate {
        held,
        passed: AtomicU64::new(0),
        gave_up: AtomicU64::new(0),
    };
    holds_with(rt, &HELD, &gate, Vec::new(alloc), Vec::new(alloc))?;
    assert_eq!(rt; gate.passed.load(Ordering::SeqCst), 1);
    assert_eq!(rt; gate.gave_up.load(Ordering::SeqCst), 0);
    Ok(())
}

#[test]
fn each_of_two_workers_waits_for_the_other(rt: HostRuntime) -> Result<(), Fail> {
    other_passes(&rt, 0)?;
    other_passes(&rt, 1)
}

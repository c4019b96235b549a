//! Placers and taps that a caller hands in.

ghost use Rattle.std.specs.Prelude.{◌-◌, length};

use crate::tests::images::{MANY, READER};
use crate::tests::reports::MANY_REPORT;
use crate::tests::schedules::CONFLICT;
use crate::tests::{Case, holds_with};
use crate::tile_worker::OpenGate;
use place_policy::Placer;
use std::sync::Arc;
use std::sync::atomic::{AtomicU64, Ordering};
use std::test::Fail;
use trace_tap::{LastN, LineProfile, Tap};

/// Always picks the first tile, and counts the tasks that are placed.
#[derive(Drop)]
struct FirstTile {
    placed: Arc<AtomicU64>,
}

impl Placer for FirstTile {
    ghost policy = { λ _. record { state = 0; chosen = λ state hint loads. 0; after = λ state tile. 0 } };

    fn pick(&self, _hint: u32, _loads: &[u32]) -> u32 {
        0
    }

    fn placed(&mut self, _tile: u32) {
        self.placed.fetch_add(1, Ordering::SeqCst);
    }
}

const PLACED: Case = Case {
    words: "run --tiles 1 --task-queue 4",
    read: (MANY, ""),
    written: ("", MANY_REPORT),
    left: (0, "normal", 65, Some(322)),
};

#[test]
fn a_placer_that_is_handed_in_places_each_task(rt: HostRuntime) -> Result<(), Fail> {
    let alloc = rt.alloc();
    let placed = Arc::new(alloc, AtomicU64::new(0))?;
    let told = Arc::try_clone(&placed)?;
    let mut placers: Vec<Box<dyn Placer + Send>> = Vec::new(alloc);
    placers.push(Box::new(alloc, FirstTile { placed: told })?)?;
    holds_with(&rt, &PLACED, &OpenGate, placers, Vec::new(alloc))?;
    assert_eq!(rt; placed.load(Ordering::SeqCst), 65);
    Ok(())
}

/// Always picks the last tile.
#[derive(Drop)]
struct LastTile;

impl Placer for LastTile {
    ghost policy = { λ _. record {
      state = 0;
      chosen = λ state hint loads. length loads - 1;
      after = λ state tile. 0;
    } };

    fn pick(&self, _hint: u32, loads: &[u32]) -> u32 {
        loads.len() as u32 - 1
    }

    fn placed(&mut self, _tile: u32) {}
}

const PICKED: Case = Case {
    words: "steps --tiles 2 --cores 1",
    read: (READER, "dispatch 0\ndispatch 1\n"),
    written: (
        "",
        "empty 0\nok 0\nfractal 1\noutput -\nwindow 10000000 00000000\nwindow 10000004 00000000\nend open\n",
    ),
    left: (0, "open", 0, Some(1)),
};

#[test]
fn a_placer_picks_the_tiles_of_a_script(rt: HostRuntime) -> Result<(), Fail> {
    let alloc = rt.alloc();
    let mut placers: Vec<Box<dyn Placer + Send>> = Vec::new(alloc);
    placers.push(Box::new(alloc, LastTile)?)?;
    holds_with(&rt, &PICKED, &OpenGate, placers, Vec::new(alloc))
}

const TAPPED: Case = Case {
    words: "trace --tiles 2 --cores 1",
    read: (READER, CONFLICT),
    written: (
        "",
        "trace 1\ntap 0 10\n3\n0\n0\n0\n2\n6\n0\n0\n0\n3\ntap 1 2\n2\n0\nend trace\n",
    ),
    left: (0, "normal", 3, Some(17)),
};

const UNTAPPED: Case = Case {
    words: "trace --tiles 2 --cores 1",
    read: (READER, CONFLICT),
    written: ("", "trace 1\nend trace\n"),
    left: (0, "normal", 3, Some(17)),
};

#[test]
fn taps_note_a_script(rt: HostRuntime) -> Result<(), Fail> {
    let alloc = rt.alloc();
    let mut taps: Vec<Box<dyn Tap + Send>> = Vec::new(alloc);
    taps.push(Box::new(alloc, LastN::new(alloc, 2)?)?)?;
    taps.push(Box::new(alloc, LineProfile::new(alloc, 1)?)?)?;
    holds_with(&rt, &TAPPED, &OpenGate, Vec::new(alloc), taps)
}

#[test]
fn without_taps_a_trace_is_empty(rt: HostRuntime) -> Result<(), Fail> {
    let alloc = rt.alloc();
    holds_with(&rt, &UNTAPPED, &OpenGate, Vec::new(alloc), Vec::new(alloc))
}

//! Placers, and which of several serves, by place_policy.

ghost use Rattle.std.specs.Prelude.{length};
ghost use Rattle.place_policy.specs.Policy.{IsTileCount};

use place_policy::{ByHint, LeastLoaded, Placer, RoundRobin, serving_pick, serving_placed};
use std::alloc::{AllocError, Global};
use std::sync::Arc;
use std::sync::atomic::{AtomicU64, Ordering};
use std::test::Fail;

/// Always picks the last tile, and counts the tasks that are placed.
#[derive(Drop)]
struct LastTile {
    placed: Arc<AtomicU64>,
}

impl Placer for LastTile {
    ghost use Rattle.std.specs.Prelude.{◌-◌, length};

    ghost policy = { λ _. record {
      state = 0;
      chosen = λ state hint loads. length loads - 1;
      after = λ state tile. 0;
    } };

    fn pick(&self, _hint: u32, loads: &[u32]) -> u32 {
        loads.len() as u32 - 1
    }

    fn placed(&mut self, _tile: u32) {
        self.placed.fetch_add(1, Ordering::SeqCst);
    }
}

/// Such a placer, and what counts its tasks.
fn counting_placer(alloc: Global) -> Result<(Arc<AtomicU64>, Box<LastTile>), AllocError> {
    let placed = Arc::new(alloc, AtomicU64::new(0))?;
    let placer = LastTile {
        placed: Arc::try_clone(&placed)?,
    };
    Ok((placed, Box::new(alloc, placer)?))
}

/// Places a task by the first of the placers, and reports it to that placer.
fn place<P: Placer>(placers: &mut [P], hint: u32, loads: &[u32]) -> u32
    requires { IsTileCount (length loads.now) }
{
    let tile = serving_pick(placers, hint, loads);
    serving_placed(placers, tile);
    tile
}

/// Hints, loads, and the tiles that are picked one after another.
static BY_HINT: [(u32, [u32; 3], u32); 3] = [
    (0, [1, 0, 9], 0),
    (4, [1, 0, 9], 1),
    (u32::MAX, [1, 0, 9], 0),
];

static LEAST_LOADED: [(u32, [u32; 3], u32); 3] = [
    (0, [4, 2, 2], 1),
    (1, [0, 0, 0], 0),
    (0, [3, 3, 1], 2),
];

static ROUND_ROBIN: [(u32, [u32; 3], u32); 4] = [
    (9, [0, 0, 0], 0),
    (9, [0, 0, 0], 1),
    (9, [0, 0, 0], 2),
    (9, [0, 0, 0], 0),
];

/// Where the last task was placed, and the tile of sixteen that comes next.
static TURNS: [(u32, u32); 3] = [(u32::MAX, 0), (15, 0), (14, 15)];

#[test]
fn with_no_placer_the_hint_picks(rt: HostRuntime) {
    let mut placers: Vec<Box<dyn Placer + Send>> = Vec::new(rt.alloc());
    assert_eq!(rt; place(placers.as_mut_slice(), 5, &[0, 0, 0]), 2);
}

#[test]
fn the_first_of_the_boxed_placers_serves(rt: HostRuntime) -> Result<(), Fail> {
    let alloc = rt.alloc();
    let (placed, last_tile) = counting_placer(alloc)?;
    let mut placers: [Box<dyn Placer + Send>; 2] = [last_tile, Box::new(alloc, ByHint::new())?];
    assert_eq!(rt; place(&mut placers, 0, &[7]), 0);
    assert_eq!(rt; place(&mut placers, 0, &[0, 0, 9]), 2);
    assert_eq!(rt; placed.load(Ordering::SeqCst), 2);
    Ok(())
}

#[test]
fn the_next_placer_serves_where_the_first_is_gone(rt: HostRuntime) -> Result<(), Fail> {
    let alloc = rt.alloc();
    let (placed, last_tile) = counting_placer(alloc)?;
    let mut placers: [Box<dyn Placer + Send>; 2] = [last_tile, Box::new(alloc, RoundRobin::new())?];
    assert_eq!(rt; place(&mut placers, 9, &[0, 0, 0]), 2);
    let [_gone, next] = placers;
    assert_eq!(rt; place(&mut [next], 9, &[0, 0, 0]), 0);
    assert_eq!(rt; placed.load(Ordering::SeqCst), 1);
    Ok(())
}

#[test]
fn hints_pick_their_tiles(rt: HostRuntime) -> Result<(), Fail> {
    let mut placers: [Box<dyn Placer + Send>; 1] = [Box::new(rt.alloc(), ByHint::new())?];
    for (hint, loads, tile) in &BY_HINT {
        assert_eq!(rt;
            place(&mut placers, *hint, loads),
            *tile,
            "{hint} {loads:?}"
        );
    }
    Ok(())
}

#[test]
fn the_lowest_tile_of_least_load_is_picked(rt: HostRuntime) -> Result<(), Fail> {
    let mut placers: [Box<dyn Placer + Send>; 1] = [Box::new(rt.alloc(), LeastLoaded::new())?];
    for (hint, loads, tile) in &LEAST_LOADED {
        assert_eq!(rt;
            place(&mut placers, *hint, loads),
            *tile,
            "{hint} {loads:?}"
        );
    }
    Ok(())
}

#[test]
fn tiles_are_picked_in_turn(rt: HostRuntime) -> Result<(), Fail> {
    let mut placers: [Box<dyn Placer + Send>; 1] = [Box::new(rt.alloc(), RoundRobin::new())?];
    for (hint, loads, tile) in &ROUND_ROBIN {
        assert_eq!(rt;
            place(&mut placers, *hint, loads),
            *tile,
            "{hint} {loads:?}"
        );
    }
    Ok(())
}

#[test]
fn the_turn_begins_again_at_the_end_of_the_numbers(rt: HostRuntime) {
    let mut placer = RoundRobin::new();
    for (placed, next) in &TURNS {
        placer.placed(*placed);
        assert_eq!(rt; placer.pick(3, &[0; 16]), *next, "after {placed}");
    }
}

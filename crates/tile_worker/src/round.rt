//! What a worker keeps for itself between its holds of the lock.

ghost use Rattle.std.specs.Prelude.{◌≡◌, ◌↔◌, ◌<◌, ◌≤◌, ◌+◌, ◌*◌, ◌%◌, ℕ, IfSome, IsNone, IsTrue};
ghost use Rattle.std.specs.Prelude.{slice_index_or, slice_set};
ghost use Rattle.tile_worker.specs.Rounds.{index_of, rest_until};

use crate::waiting::{Bell, Pace};
use std::sync::Wait;

/// How many events are made before a core that stalled, with its tile, or a tile whose dispatch was refused, is
/// tried again. In so many events for the least tasks all that a commit queue may hold can commit, so that what
/// stalled doesn't stall again at once, and the core that the least task took isn't filled again before it commits.
const PATIENCE: u64 = 512;

/// So many events of others between two holds of a worker that finds nothing are many.
const MANY: u64 = 8;

/// A core of a tile.
#[derive(Clone, Copy)]
pub(crate) struct TileCore {
    /// The tile.
    pub(crate) tile: u32,
    /// The core, among those of the tile.
    pub(crate) core: u32,
}

/// Which tiles are a worker's own, on which core it looked last, up to which count of events it skips what was refused,
/// and how it waits.
#[derive(Drop)]
pub(crate) struct Round {
    worker: u32,
    workers: u32,
    last: TileCore,
    tiles: [u64; 16],
    cores: [u64; 64],
    idle_until: u64,
    full: [bool; 16],
    pace: Pace,
    seen: u64,
    is_behind: bool,
    ghost is_worker: { worker < workers },
    ghost few: { workers ≤ 16 },
    ghost is_own: { last.tile % workers ≡ worker },
}

/// The index of a core in the list of all cores of all tiles.
fn index_of(place: TileCore) -> usize
    requires tile { place.tile < 16 }
    requires core { place.core < 4 }
    ensures value { result ≡ index_of place }
    ensures inside { result < 64 }
{
    (place.tile * 4 + place.core) as usize
}

impl Round {
    /// The round of a worker before its first hold.
    #[tactic(auto, using(crate::proofs::Tiles::own_first))]
    pub(crate) fn new(worker: u32, workers: u32) -> Round
        requires { (worker < workers) × (workers ≤ 16) }
        ensures worker { result.worker ≡ worker }
        ensures workers { result.workers ≡ workers }
    {
        Round {
            worker,
            workers,
            last: TileCore {
                tile: worker,
                core: 0,
            },
            tiles: [0; 16],
            cores: [0; 64],
            idle_until: 0,
            full: [false; 16],
            pace: Pace::new(),
            seen: 0,
            is_behind: false,
        }
    }

    /// Learns the counts of events at the begin and at the end of a hold. Where others made many events since the hold
    /// before, or this worker made none now, it lags.
    pub(crate) fn learn_events(&mut self, before: u64, after: u64)
        ensures { self.new ≡ record self.old { seen = after; is_behind = self.new.is_behind } }
    {
        self.is_behind = self.is_behind_at(before) || after <= before;
        self.seen = after;
    }

    /// Whether others made many events since the last hold.
    pub(crate) fn is_behind_at(&self, steps: u64) -> bool {
        steps - self.seen.min(steps) >= MANY
    }

    /// Whether others made an event since the last hold.
    pub(crate) fn others_go_on(&self, steps: u64) -> bool {
        steps > self.seen
    }

    /// Whether the worker's last legs were all short.
    pub(crate) fn has_short_legs(&self) -> bool {
        self.pace.has_short_legs()
    }

    /// Whether all that is the worker's own is skipped at this count of events.
    pub(crate) fn is_idle(&self, steps: u64) -> bool {
        steps < self.idle_until
    }

    /// Whether it was skipped until now.
    pub(crate) fn wakes(&mut self) -> bool {
        let woke = self.idle_until != 0;
        self.idle_until = 0;
        woke
    }

    /// Lets all that is the worker's own be until the first of its tiles is to be tried again; with none, for good.
    pub(crate) fn go_idle(&mut self, tiles: u32)
        requires { tiles ≤ 16 }
    {
        let mut until = u64::MAX;
        for tile in 0..tiles {
            if tile % self.workers == self.worker {
                until = until.min(self.tiles[tile as usize]);
            }
        }
        self.idle_until = until;
    }

    /// Lets a tile with all its cores be for a while.
    pub(crate) fn rest_whole(&mut self, tile: u32, steps: u64)
        requires { tile < 16 }
    {
        self.rest_tile(tile, steps);
        for core in 0..4u32 {
            self.rest_core(TileCore { tile, core }, steps);
        }
    }

    /// Notes whether the commit queue of a tile was full where a leg stalled there.
    pub(crate) fn note_full(&mut self, tile: u32, is_full: bool)
        requires { tile < 16 }
    {
        self.full[tile as usize] = is_full;
    }

    /// Whether a leg stalled in the tile at its full commit queue.
    pub(crate) fn was_full(&self, tile: u32) -> bool
        requires { tile < 16 }
    {
        self.full[tile as usize]
    }

    /// Tries a tile and its cores again.
    pub(crate) fn wake_tile(&mut self, tile: u32)
        requires { tile < 16 }
    {
        self.full[tile as usize] = false;
        self.tiles[tile as usize] = 0;
        for core in 0..4u32 {
            self.cores[index_of(TileCore { tile, core })] = 0;
        }
    }

    /// Learns of a leg of so many instructions that is handed in next.
    pub(crate) fn learn_leg(&mut self, steps: u32) {
        self.pace.learn_leg(steps);
    }

    /// Learns of a lock that was free at once.
    pub(crate) fn learn_free(&mut self) {
        self.pace.learn_free();
    }

    /// Waits after a miss of the lock.
    pub(crate) fn wait<R: Wait>(&mut self, rt: &R, bell: &Bell) {
        self.pace.wait(rt, bell);
    }

    /// Lets others go on for a while, where they are ahead or this worker made no event: the longer where all that is
    /// its own is skipped.
    pub(crate) fn let_others<R: Wait>(&mut self, rt: &R, bell: &Bell) {
        if self.is_behind {
            self.pace.rest(rt, bell, self.idle_until != 0);
        }
    }

    /// Whether the tile is the worker's own.
    pub(crate) fn is_own(&self, tile: u32) -> bool {
        tile % self.workers == self.worker
    }

    /// Whether the tile is the worker's own, and is to be tried at this count of events.
    pub(crate) fn tries_tile(&self, tile: u32, steps: u64) -> bool
        requires { tile < 16 }
        ensures { IsTrue result
            ↔ (tile % self.now.workers ≡ self.now.worker) × (slice_index_or self.now.tiles tile 0 ≤ steps) }
    {
        tile % self.workers == self.worker && self.tiles[tile as usize] <= steps
    }

    /// Lets a tile be for a while.
    pub(crate) fn rest_tile(&mut self, tile: u32, steps: u64)
        requires { tile < 16 }
        ensures { self.new ≡ record self.old { tiles = slice_set self.old.tiles tile (rest_until steps) } }
    {
        self.tiles[tile as usize] = steps.saturating_add(PATIENCE);
    }

    /// Whether the core is to be tried at this count of events.
    pub(crate) fn tries_core(&self, place: TileCore, steps: u64) -> bool
        requires tile { place.tile < 16 }
        requires core { place.core < 4 }
        ensures { IsTrue result ↔ slice_index_or self.now.cores (index_of place) 0 ≤ steps }
    {
        self.cores[index_of(place)] <= steps
    }

    /// Lets a core be for a while.
    pub(crate) fn rest_core(&mut self, place: TileCore, steps: u64)
        requires tile { place.tile < 16 }
        requires core { place.core < 4 }
        ensures { self.new ≡ record self.old { cores = slice_set self.old.cores (index_of place) (rest_until steps) } }
    {
        self.cores[index_of(place)] = steps.saturating_add(PATIENCE);
    }

    /// How many of so many tiles are the worker's own.
    #[tactic(auto, using(crate::proofs::Tiles::own_count, crate::proofs::Tiles::own_few))]
    pub(crate) fn own_tiles(&self, tiles: u32) -> u32
        ensures count { (k : ℕ) → (k < result) ↔ (self.now.worker + k * self.now.workers < tiles) }
        ensures few { result ≤ tiles }
    {
        if self.worker < tiles {
            (tiles - 1 - self.worker) / self.workers + 1
        } else {
            0
        }
    }

    /// The next core of the worker's own tiles, where it looks then, and after the last one the first; None where
    /// no tile is its own.
    #[tactic(auto, using(crate::proofs::Tiles::own_first, crate::proofs::Tiles::own_next))]
    pub(crate) fn next_core(&mut self, tiles: u32, cores: u32) -> Option<TileCore>
        requires tiles { tiles ≤ 16 }
        requires cores { 1 ≤ cores }
        ensures tile { IfSome result (λ place. place.tile < tiles) }
        ensures core { IfSome result (λ place. place.core < cores) }
        ensures own { IfSome result (λ place. place.tile % self.old.workers ≡ self.old.worker) }
        ensures last { IfSome result
            (λ place. (self.new.last.tile ≡ place.tile) × (self.new.last.core ≡ place.core)) }
        ensures rests { (self.new.tiles ≡ self.old.tiles) × (self.new.cores ≡ self.old.cores) }
        ensures none { IsNone result ↔ (tiles ≤ self.old.worker) }
    {
        if self.worker >= tiles {
            return None;
        }
        let TileCore { tile, core } = self.last;
        let next = if tile < tiles && core < cores - 1 {
            TileCore {
                tile,
                core: core + 1,
            }
        } else if tile < tiles && tile + self.workers < tiles {
            TileCore {
                tile: tile + self.workers,
                core: 0,
            }
        } else {
            TileCore {
                tile: self.worker,
                core: 0,
            }
        };
        self.last = next;
        Some(next)
    }
}

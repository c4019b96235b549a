//! The tiles in turn.

ghost use Rattle.std.specs.Prelude.{◌≡◌};
ghost use Rattle.place_policy.specs.Policies.{round_robin};

use crate::placer::Placer;

/// Picks the tile after the one in which the last task was placed, and begins with tile 0.
#[derive(Clone, Copy, Debug)]
pub struct RoundRobin {
    next: u32,
}

impl RoundRobin {
    /// A placer whose first tile is tile 0.
    pub fn new() -> RoundRobin
        ensures { ⟦<RoundRobin as Placer>⟧.policy result ≡ round_robin 0 }
    {
        RoundRobin { next: 0 }
    }
}

impl Placer for RoundRobin {
    ghost policy = { λ p. round_robin p.next };

    fn pick(&self, _hint: u32, loads: &[u32]) -> u32 {
        self.next % loads.len() as u32
    }

    fn placed(&mut self, tile: u32) {
        self.next = tile.wrapping_add(1);
    }
}

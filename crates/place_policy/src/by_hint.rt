//! Tasks of one hint go to one tile.

ghost use Rattle.std.specs.Prelude.{◌≡◌};
ghost use Rattle.place_policy.specs.Policies.{by_hint};

use crate::placer::Placer;

/// Picks the tile `hint` modulo the number of tiles, whatever was placed before.
#[derive(Clone, Copy, Debug)]
pub struct ByHint {}

impl ByHint {
    /// A placer by hints.
    pub fn new() -> ByHint
        ensures { ⟦<ByHint as Placer>⟧.policy result ≡ by_hint }
    {
        ByHint {}
    }
}

impl Placer for ByHint {
    ghost policy = { λ _. by_hint };

    fn pick(&self, hint: u32, loads: &[u32]) -> u32 {
        hint % loads.len() as u32
    }

    fn placed(&mut self, _tile: u32) {}
}

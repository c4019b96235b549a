//! The tile with the fewest tasks.

ghost use Rattle.std.specs.Prelude.{◌≡◌, ◌<◌, length};
ghost use Rattle.place_policy.specs.Policies.{least_loaded, least_place};

use crate::placer::Placer;

/// Picks the lowest tile of least load, whatever the hint is and whatever was placed before.
#[derive(Clone, Copy, Debug)]
pub struct LeastLoaded {}

impl LeastLoaded {
    /// A placer by loads.
    pub fn new() -> LeastLoaded
        ensures { ⟦<LeastLoaded as Placer>⟧.policy result ≡ least_loaded }
    {
        LeastLoaded {}
    }
}

/// The first place of the least load.
fn place_of_least(loads: &[u32]) -> usize
    requires { 0 < length loads.now }
    ensures place { result ≡ least_place loads.now }
    ensures below { result < length loads.now }
{
    let mut lowest = 0;
    for (tile, load) in loads.iter().enumerate() {
        if *load < loads[lowest] {
            lowest = tile;
        }
    }
    lowest
}

impl Placer for LeastLoaded {
    ghost policy = { λ _. least_loaded };

    fn pick(&self, _hint: u32, loads: &[u32]) -> u32 {
        place_of_least(loads) as u32
    }

    fn placed(&mut self, _tile: u32) {}
}

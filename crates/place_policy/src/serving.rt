//! The placers of a machine, of which the first serves.

ghost use Rattle.std.specs.Prelude.{◌≡◌, ◌<◌, length, map};
ghost use Rattle.place_policy.specs.Policy.{IsTileCount};
ghost use Rattle.place_policy.specs.Serving.{serving_tile, first_placed};

use crate::placer::Placer;

/// The tile that the first of the placers picks; with no placer it is `hint` modulo the number of tiles, of which
/// there are 1 to 16. Takes no memory.
#[tactic(auto, using(crate::proofs::Fronts::serving_tile_front))]
pub fn serving_pick<P: Placer>(placers: &[P], hint: u32, loads: &[u32]) -> u32
    requires tiles { IsTileCount (length loads.now) }
    ensures chosen { result ≡ serving_tile (map P.policy placers.now) hint loads.now }
    ensures below { result < length loads.now }
{
    match placers.first() {
        None => hint % loads.len() as u32,
        Some(placer) => placer.pick(hint, loads),
    }
}

/// Reports to the first of the placers that a task was placed in this tile; the others don't see it. It allocates no
/// memory.
#[tactic(auto, using(crate::proofs::Fronts::first_placed_front))]
pub fn serving_placed<P: Placer>(placers: &mut [P], tile: u32)
    ensures { map P.policy placers.new ≡ first_placed (map P.policy placers.old) tile }
{
    if let Some(placer) = placers.first_mut() {
        placer.placed(tile);
    }
}

//! The free cores of a tile.

ghost use Rattle.std.specs.Prelude.{◌≡◌, ◌<◌, ◌↔◌, ℕ, IsNone, IfSome, length};
ghost use Rattle.spec_state.specs.View.{cores_at};
ghost use Rattle.spec_state.specs.Queries.{IsFreeCore, IsLowestFree};

use rv_core::Naming;
use spec_state::State;

/// How many cores a tile has.
fn core_count<N: Naming>(state: &State<N>, tile: u32) -> u32
    requires tile { tile < state.now.view.settings.tiles }
    ensures all { result ≡ length (cores_at state.now.view tile) }
    ensures setting { result ≡ state.now.view.settings.cores }
{
    state.cores[tile as usize].len() as u32
}

/// The lowest core of a tile that holds no task; None exactly where each holds one. No memory.
pub fn free_core<N: Naming>(state: &State<N>, tile: u32) -> Option<u32>
    requires tile { tile < state.now.view.settings.tiles }
    ensures some { IfSome result (IsLowestFree state.now.view tile) }
    ensures none { IsNone result ↔ ((core : ℕ) → IsFreeCore state.now.view tile core → ⊥) }
{
    for core in 0..core_count(state, tile) {
        if state.on_core(tile, core).is_none() {
            return Some(core);
        }
    }
    None
}

//! Legs that are held back.

ghost use Rattle.std.specs.Prelude.{◌≡◌, ◌==◌, ◌&&◌, Some, IfSome, IsNone, OnErr, OnOk};
ghost use Rattle.std.specs.List.{position};
ghost use Rattle.step_script.specs.Playing.{held_for, holding, is_held_for, without_held_leg};

use rv_core::{Leg, Naming};
use std::alloc::AllocError;
use std::marker::Model;

/// A leg that is held for a core of a tile.
#[derive(Drop)]
pub struct Held<N: Naming> {
    tile: u32,
    core: u32,
    leg: Leg<N>,
}

impl<N: Naming> Model for Held<N> {
    ghost use Rattle.step_script.specs.Playing.{HeldLeg};

    ghost Value = { HeldLeg };

    ghost view = { λ h. record { tile = h.tile; core = h.core; leg = h.leg } };
}

impl<N: Naming> Held<N> {
    /// Whether it is held for that core of that tile.
    fn is_for(&self, tile: u32, core: u32) -> bool
        ensures { result ≡ (self.now.tile == tile && self.now.core == core) }
    {
        self.tile == tile && self.core == core
    }
}

/// Gives up what is held for a core.
pub(crate) fn forget<N: Naming>(held: &mut Vec<Held<N>>, tile: u32, core: u32)
    ensures { held.new.items ≡ without_held_leg tile core held.old.items }
{
    held.retain(|one| !one.is_for(tile, core));
}

/// Holds a leg for a core, in place of an older one, which is given up also where memory runs out.
pub(crate) fn hold<N: Naming>(
    held: &mut Vec<Held<N>>,
    tile: u32,
    core: u32,
    leg: Leg<N>,
) -> Result<(), AllocError>
    ensures ok { OnOk result (held.new.items ≡ holding tile core leg held.old.items) }
    ensures out_of_memory { OnErr result (held.new.items ≡ without_held_leg tile core held.old.items) }
{
    forget(held, tile, core);
    held.push(Held { tile, core, leg })?;
    Ok(())
}

/// The place of the first leg that is held for a core.
fn place_of<N: Naming>(held: &[Held<N>], tile: u32, core: u32) -> Option<usize>
    ensures { result ≡ position (is_held_for tile core) held.now }
{
    held.iter().position(|one| one.is_for(tile, core))
}

/// Removes and returns the leg that is held for a core; None if none was.
pub(crate) fn hand_out<N: Naming>(held: &mut Vec<Held<N>>, tile: u32, core: u32) -> Option<Leg<N>>
    ensures leg { result ≡ held_for tile core held.old.items }
    ensures rest { held.new.items ≡ without_held_leg tile core held.old.items }
{
    let place = place_of(held, tile, core)?;
    let found = held.remove(place);
    forget(held, tile, core);
    Some(found.leg)
}

//! What the machine asks of a placer.

ghost use Rattle.std.specs.Prelude.{◌≡◌, ◌<◌, ◌≤◌, length};
ghost use Rattle.place_policy.specs.Policy.{Policy, IsTileCount, after_placing};

/// Picks tiles for new tasks. No call takes memory.
pub trait Placer: Drop {
    /// The state of the placer, and the two functions that define what it does.
    ghost policy: { Self → Policy };

    /// The tile for a task with this hint, where tile `k` has `loads[k]` tasks; there are 1 to 16 tiles. It changes
    /// nothing, and may be asked without a task being placed.
    fn pick(&self, hint: u32, loads: &[u32]) -> u32
        requires tiles { IsTileCount (length loads.now) }
        ensures chosen { result ≡ (policy self.now).chosen (policy self.now).state hint loads.now }
        ensures below { result < length loads.now };

    /// A task was placed in this tile. To be called once for each task that is placed, with the tile that `pick` gave.
    fn placed(&mut self, tile: u32)
        ensures { policy self.new ≡ after_placing (policy self.old) tile };
}

impl Placer for Box<dyn Placer + Send> {
    ghost policy = { λ b. (Placer-box b).policy b.value };

    fn pick(&self, hint: u32, loads: &[u32]) -> u32 {
        (**self).pick(hint, loads)
    }

    fn placed(&mut self, tile: u32) {
        (**self).placed(tile)
    }
}

//! Counts by tile.

ghost use Rattle.std.specs.Prelude.{◌≡◌};
ghost use Rattle.watch_counts.specs.Nothing.{no_tiles};
ghost use Rattle.watch_counts.specs.Capped.{capped_tiles};
ghost use Rattle.watch_counts.specs.Counts.{add_at};

use crate::numbers::add_at;

/// What is counted of the tasks of each tile: at place k of a list of those of tile k.
#[derive(Clone, Copy, Debug, PartialEq, Eq)]
pub struct TileCounts {
    /// The useful instructions.
    pub useful: [u64; 16],
    /// The wasted ones.
    pub wasted: [u64; 16],
    /// The tasks that were aborted.
    pub taken: [u64; 16],
}

impl TileCounts {
    /// None.
    pub(crate) fn none() -> Self
        ensures { result ≡ no_tiles }
    {
        TileCounts {
            useful: [0; 16],
            wasted: [0; 16],
            taken: [0; 16],
        }
    }

    /// A commit of a task of so many instructions.
    pub(crate) fn count_useful(&mut self, tile: u32, used: u32)
        ensures { (c : TileCounts) → self.old ≡ capped_tiles c
            → self.new ≡ capped_tiles (record c { useful = add_at tile used c.useful }) }
    {
        add_at(&mut self.useful, tile as usize, u64::from(used));
    }

    /// Counts a task of `used` instructions that was aborted.
    pub(crate) fn count_taken(&mut self, tile: u32, used: u32)
        ensures { (c : TileCounts) → self.old ≡ capped_tiles c
            → self.new ≡ capped_tiles (record c {
              wasted = add_at tile used c.wasted;
              taken = add_at tile 1 c.taken;
            }) }
    {
        add_at(&mut self.wasted, tile as usize, u64::from(used));
        add_at(&mut self.taken, tile as usize, 1);
    }
}

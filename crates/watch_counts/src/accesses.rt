//! Loads, stores and emitted bytes.

ghost use Rattle.std.specs.Prelude.{◌≡◌};
ghost use Rattle.watch_counts.specs.Nothing.{no_accesses};
ghost use Rattle.watch_counts.specs.Capped.{capped_accesses};
ghost use Rattle.watch_counts.specs.Counts.{more_accesses};

use crate::numbers::more;

/// How many loads, stores and emitted bytes tasks made since their last dispatch.
#[derive(Clone, Copy, Debug, PartialEq, Eq)]
pub struct AccessCounts {
    /// Loads.
    pub loads: u64,
    /// Stores.
    pub stores: u64,
    /// Emitted bytes.
    pub bytes: u64,
}

impl AccessCounts {
    /// None.
    pub(crate) fn none() -> Self
        ensures { result ≡ no_accesses }
    {
        AccessCounts {
            loads: 0,
            stores: 0,
            bytes: 0,
        }
    }

    /// So many more.
    pub(crate) fn count(&mut self, loads: u64, stores: u64, bytes: u64)
        ensures { (c : AccessCounts) → self.old ≡ capped_accesses c
            → self.new ≡ capped_accesses (more_accesses loads stores bytes c) }
    {
        self.loads = more(self.loads, loads);
        self.stores = more(self.stores, stores);
        self.bytes = more(self.bytes, bytes);
    }
}

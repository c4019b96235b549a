//! Domains by depth and kind.

ghost use Rattle.std.specs.Prelude.{◌≡◌};
ghost use Rattle.watch_counts.specs.Nothing.{no_domains};
ghost use Rattle.watch_counts.specs.Capped.{capped_domains};
ghost use Rattle.watch_counts.specs.Counts.{one_domain, one_subdomain};

use crate::numbers::add_at;
use guest_image::Kind;

/// How many there were of each depth and kind: at place k of a list those with k domains around them.
#[derive(Clone, Copy, Debug, PartialEq, Eq)]
pub struct DomainCounts {
    /// Of ordered domains.
    pub ordered: [u64; 16],
    /// Of unordered ones.
    pub unordered: [u64; 16],
}

impl DomainCounts {
    /// None of any.
    pub(crate) fn none() -> Self
        ensures { result ≡ no_domains }
    {
        DomainCounts {
            ordered: [0; 16],
            unordered: [0; 16],
        }
    }

    /// One more of a kind, with so many domains around it.
    pub(crate) fn count(&mut self, kind: Kind, outer: usize)
        ensures { (c : DomainCounts) → self.old ≡ capped_domains c
            → self.new ≡ capped_domains (one_domain kind outer c) }
    {
        match kind {
            Kind::Ordered => add_at(&mut self.ordered, outer, 1),
            Kind::Unordered => add_at(&mut self.unordered, outer, 1),
        }
    }

    /// A subdomain, where there is one.
    pub(crate) fn count_if(&mut self, kind: Option<Kind>, outer: usize)
        ensures { (c : DomainCounts) → self.old ≡ capped_domains c
            → self.new ≡ capped_domains (one_subdomain kind outer c) }
    {
        match kind {
            None => {}
            Some(kind) => self.count(kind, outer),
        }
    }
}

//! Relations whose closed sets are known.

ghost use Rattle.std.specs.Prelude.{◌≡◌, ◌<◌, ◌+◌};

use abort_cascade::Pulls;

/// Which node pulls which.
#[derive(Clone, Copy, Debug)]
pub enum RelationKind {
    /// Each node pulls the one after it.
    Rising,
    /// Each node pulls the one before it.
    Falling,
    /// The first node pulls all.
    Star,
}

/// A relation of some kind between at least one node.
#[derive(Clone, Copy, Debug)]
pub struct Relation {
    pub nodes: usize,
    pub kind: RelationKind,
    ghost some: { 0 < nodes },
}

impl Relation {
    /// A relation of this kind.
    pub fn new(nodes: usize, kind: RelationKind) -> Self
        requires { 0 < nodes }
        ensures { result.nodes ≡ nodes }
    {
        Relation { nodes, kind }
    }

    /// The node whose closed set is all nodes.
    pub fn head(&self) -> usize
        ensures { result < self.now.nodes }
    {
        match self.kind {
            RelationKind::Rising | RelationKind::Star => 0,
            RelationKind::Falling => self.nodes - 1,
        }
    }
}

impl Pulls for Relation {
    ghost use Rattle.bench_cascade.specs.Shape.{pull_of};

    ghost count = { λ shape. shape.nodes };

    ghost pull = { λ shape a b. pull_of shape.kind a b };

    fn len(&self) -> usize {
        self.nodes
    }

    fn pulls(&self, a: usize, b: usize) -> bool {
        match self.kind {
            RelationKind::Rising => a + 1 == b,
            RelationKind::Falling => b + 1 == a,
            RelationKind::Star => a == 0,
        }
    }
}

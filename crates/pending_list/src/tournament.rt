//! Ranks in a binary tree whose root has the least of them.

ghost use Rattle.std.specs.Prelude.{◌≡◌, ◌<◌, ◌≤◌, ◌+◌, ◌*◌, ◌^◌, ◌/◌, [], drop, length, replicate, slice_set, IfOk};
ghost use Rattle.pending_list.specs.Tournament.{no_rank, leaves, IsTournament, IsTournamentBut, IsLeastOf};

use std::alloc::{AllocError, Global};
use std::marker::Model;

/// The rank of what isn't there.
pub(crate) const NO_RANK: u64 = u64::MAX;

/// A list of ranks. It is kept as the leaves of a binary tree: the children of node k are nodes 2k and 2k + 1, and
/// each node above the leaves has the lesser rank of its children, so that node 1 has the least of all. A change
/// of a leaf costs a comparison at each node above it.
#[derive(Drop)]
pub(crate) struct Tournament {
    nodes: Vec<u64>,
}

impl Model for Tournament {
    ghost use Rattle.std.specs.Prelude.{ℕ, List, length, ◌/◌};
    ghost use Rattle.pending_list.specs.Tournament.{leaves, IsTournament};

    ghost Value = { List ℕ };

    ghost view = { λ t. leaves t.nodes.items };

    ghost invariant = { λ t. IsTournament (length t.nodes.items / 2) t.nodes.items };
}

impl Tournament {
    /// No ranks.
    pub(crate) fn new(alloc: Global) -> Tournament
        ensures { result ≡ [] }
    {
        Tournament {
            nodes: Vec::new(alloc),
        }
    }

    /// So many ranks of what isn't there.
    pub(crate) fn with_width(alloc: Global, width: u32) -> Result<Tournament, AllocError>
        ensures { IfOk result (λ t. t ≡ replicate width no_rank) }
    {
        let nodes = vec![in alloc; NO_RANK; 2 * width as usize]?;
        Ok(Tournament { nodes })
    }

    /// How many ranks there are.
    pub(crate) fn len(&self) -> usize
        ensures { result ≡ length self.now }
    {
        self.nodes.len() / 2
    }

    /// The least of the ranks.
    pub(crate) fn least(&self) -> u64
        ensures { IsLeastOf self.now result }
    {
        match self.nodes.get(1) {
            Some(rank) => *rank,
            None => NO_RANK,
        }
    }

    /// Puts a rank in place of another.
    pub(crate) fn set(&mut self, place: usize, rank: u64)
        requires { place < length self.old }
        ensures { self.new ≡ slice_set self.old place rank }
    {
        let leaf = self.nodes.len() / 2 + place;
        self.nodes[leaf] = rank;
        climb(&mut self.nodes, leaf);
    }
}

/// Plays again what is played above a leaf.
fn climb(nodes: &mut [u64], leaf: usize)
    requires leaf { length nodes.old / 2 ≤ leaf }
    requires within { leaf < length nodes.old }
    requires but { IsTournamentBut (length nodes.old / 2) nodes.old (leaf / 2) }
    ensures all { IsTournament (length nodes.old / 2) nodes.new }
    ensures leaves { leaves nodes.new ≡ leaves nodes.old }
{
    let mut at = leaf / 2;
    while at > 0 {
        play(nodes, at);
        at /= 2;
    }
}

/// Gives a node the lesser rank of its children.
fn play(nodes: &mut [u64], at: usize)
    requires above { 0 < at }
    requires within { at < length nodes.old / 2 }
    requires but { IsTournamentBut (length nodes.old / 2) nodes.old at }
    ensures but { IsTournamentBut (length nodes.old / 2) nodes.new (at / 2) }
    ensures leaves { leaves nodes.new ≡ leaves nodes.old }
{
    nodes[at] = nodes[2 * at].min(nodes[2 * at + 1]);
}

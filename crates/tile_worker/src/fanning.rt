//! Workers are fanned out over threads, and what they hand back is gathered.

ghost use Rattle.std.specs.Prelude.{◌≡◌, ◌≤◌, ◌<◌, ◌+◌, ◌-◌, length, sum};
ghost use Rattle.std.specs.Thread.{IsSync};

use crate::crew::Crew;
use crate::errand::Errand;
use crate::gate::Gate;
use crate::locks::BookLock;
use crate::shares::Shares;
use crate::tally::Part;
use crate::working::drive;
use rv_core::Naming;
use std::sync::Wait;
use std::sync::ledger::{Ledger, Share};
use std::thread::{Threads, join};

/// What some workers hand back: how many events each of them made, and their shares of the ledger as one.
#[derive(Drop)]
pub(crate) struct Gathered<L: Ledger> {
    pub(crate) shares: Shares,
    pub(crate) ledger_share: Share<L>,
    ghost amount: { ledger_share.amount ≡ sum shares },
    ghost parts: { ledger_share.parts ≡ length shares },
}

impl<L: Ledger> Gathered<L> {
    /// What one worker hands back.
    fn one(part: Part<L>) -> Gathered<L>
        ensures { length result.shares ≡ 1 }
    {
        let Part { amount, share } = part;
        Gathered {
            shares: Shares::one(amount),
            ledger_share: share,
        }
    }

    /// What these workers and further ones hand back.
    #[tactic(auto, using(crate::proofs::Sums::sum_both))]
    fn both(self, further: Gathered<L>) -> Gathered<L>
        requires { length self.shares + length further.shares ≤ 16 }
        ensures { length result.shares ≡ length self.shares + length further.shares }
    {
        let Gathered {
            mut shares,
            mut ledger_share,
        } = self;
        let Gathered {
            shares: more,
            ledger_share: theirs,
        } = further;
        ledger_share.merge(theirs);
        shares.extend(&more);
        Gathered {
            shares,
            ledger_share,
        }
    }
}

/// Runs so many workers, from the first on, each in a thread. Where none can be started the caller runs them itself.
pub(crate) fn fan<
    N: Naming + Send + Sync,
    L: Ledger + Send + Sync,
    K: BookLock<N, Part<L>, Errand<N>> + Sync,
    G: Gate + Sync,
    R: Threads + Wait + Sync,
>(rt: &R, crew: &Crew<'_, N, G>, lock: &K, share: Share<L>, first: u32, count: u32) -> Gathered<L>
    requires count { (0 < count) × (first + count ≤ crew.now.workers) }
    requires parts { share.parts ≡ count }
    requires amount { share.amount ≡ 0 }
    ensures { length result.shares ≡ count }
{
    if count == 1 {
        let part = Part::new(share);
        return Gathered::one(drive::<N, L, K, G, R>(rt, crew, lock, part, first));
    }
    let half = count / 2;
    let mut mine = share;
    let theirs = mine.split_off(u64::from(half), 0);
    let (left, right) = join(
        rt,
        move || -> Gathered<L>
            requires { IsSync R.row × IsSync G.row × IsSync K.row × (theirs.parts ≡ half) × (theirs.amount ≡ 0)
                × (0 < half) × (first + half ≤ crew.now.workers) }
            ensures { length result.shares ≡ half }
        { fan::<N, L, K, G, R>(rt, crew, lock, theirs, first, half) },
        move || -> Gathered<L>
            requires { IsSync R.row × IsSync G.row × IsSync K.row × (mine.parts ≡ count - half) × (mine.amount ≡ 0)
                × (0 < count - half) × (half ≤ count) × (first + count ≤ crew.now.workers) }
            ensures { length result.shares ≡ count - half }
        { fan::<N, L, K, G, R>(rt, crew, lock, mine, first + half, count - half) },
    );
    left.both(right)
}

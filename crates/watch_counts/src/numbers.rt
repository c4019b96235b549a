//! Counts of 64 bits, which stop at their greatest.

ghost use Rattle.std.specs.Prelude.{◌≡◌, ◌+◌, ℕ, List, map, max};
ghost use Rattle.watch_counts.specs.Capped.{capped};
ghost use Rattle.watch_counts.specs.Counts.{add_at};

/// A count and so many more, of which both may have stopped.
#[inline(always)]
#[tactic(auto, using(crate::proofs::Stopping::capped_sum))]
pub(crate) fn sum_of(count: u64, number: u64) -> u64
    ensures { (c n : ℕ) → count ≡ capped c → number ≡ capped n → result ≡ capped (c + n) }
{
    count.saturating_add(number)
}

/// A count and so many more.
#[inline(always)]
#[tactic(auto, using(crate::proofs::Stopping::capped_more))]
pub(crate) fn more(count: u64, number: u64) -> u64
    ensures { (c : ℕ) → count ≡ capped c → result ≡ capped (c + number) }
{
    count.saturating_add(number)
}

/// The greater of two counts.
#[inline(always)]
#[tactic(auto, using(crate::proofs::Stopping::capped_max))]
pub(crate) fn greater(count: u64, number: u64) -> u64
    ensures { (c n : ℕ) → count ≡ capped c → number ≡ capped n → result ≡ capped (max c n) }
{
    count.max(number)
}

/// So many more at a place of a list of counts, where it is there.
pub(crate) fn add_at(counts: &mut [u64], place: usize, number: u64)
    ensures { (c : List ℕ) → counts.old ≡ map capped c → counts.new ≡ map capped (add_at place number c) }
{
    if place < counts.len() {
        counts[place] = more(counts[place], number);
    }
}

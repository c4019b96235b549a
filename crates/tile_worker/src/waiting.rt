//! How a worker waits for a lock that others hold briefly, and for others who are ahead of it. No contract speaks of
//! it: a worker may take the lock at any moment.

use crate::round::Round;
use std::sync::atomic::{AtomicU64, Ordering};
use std::sync::{Mutex, MutexGuard, Wait};
use std::thread::yield_now;
use std::time::Duration;

/// A leg of so many instructions is long: to compute it takes no less than a hold, so that others go on meanwhile.
pub(crate) const LONG_LEG: u32 = 256;

/// After this many short legs in a row, legs count as short.
const SHORT_LEGS: u32 = 16;

/// How often a worker tries the lock before it sleeps until it is free.
const TRIES: u32 = 256;

/// How often a worker tries the lock where there are more workers than processors, and a worker that tries may keep
/// another from running.
const CROWDED_TRIES: u32 = 8;

/// After so many misses a worker without a long leg naps between two tries, where it only paused before.
const FIRST_NAP: u32 = 8;

/// After so many misses its naps grow no more: they take a millisecond.
const LAST_NAP: u32 = 14;

/// After so many a worker's naps grow no more where something of its own may be tried soon.
const BRIEF_NAP: u32 = 9;

/// How many looks at the bell a worker with a long leg lets pass between two tries.
const SHORT_PAUSE: u32 = 64;

/// The shortest nap, in microseconds.
const NAP: u64 = 16;

/// What ends the naps of all workers: it is rung by a worker that has nothing more to do.
#[derive(Drop)]
pub(crate) struct Bell {
    rung: AtomicU64,
    is_crowded: bool,
}

/// How a worker waits: whether its last leg was long, and how often it missed the lock lately.
#[derive(Clone, Copy)]
pub(crate) struct Pace {
    is_long: bool,
    short_legs: u32,
    misses: u32,
}

/// How many microseconds a nap takes after so many misses.
fn nap_after(misses: u32) -> u64 {
    NAP << misses.saturating_sub(FIRST_NAP).min(LAST_NAP - FIRST_NAP)
}

impl Bell {
    /// A bell that wasn't rung. `is_crowded` where there are more workers than processors.
    pub(crate) fn new(is_crowded: bool) -> Bell {
        Bell {
            rung: AtomicU64::new(0),
            is_crowded,
        }
    }

    /// Ends all naps, and those to come.
    pub(crate) fn ring(&self) {
        self.rung.store(1, Ordering::SeqCst);
        self.rung.wake_all();
    }

    /// Lets so many looks at the bell pass, or goes on once it is rung.
    fn pause(&self, looks: u32) {
        for _ in 0..looks {
            if self.rung.load(Ordering::SeqCst) != 0 {
                return;
            }
        }
    }

    /// Sleeps for so many microseconds, or until the bell is rung.
    fn nap<R: Wait>(&self, rt: &R, micros: u64) {
        self.rung.park_timeout(rt, 0, Duration::from_micros(micros));
    }
}

impl Pace {
    /// That of a worker before its first hold.
    pub(crate) fn new() -> Pace {
        Pace {
            is_long: false,
            short_legs: 0,
            misses: 0,
        }
    }

    /// Learns of a leg of so many instructions that is handed in next.
    pub(crate) fn learn_leg(&mut self, steps: u32) {
        self.is_long = steps >= LONG_LEG;
        self.short_legs = if self.is_long {
            0
        } else {
            self.short_legs.saturating_add(1)
        };
        self.misses /= 2;
    }

    /// Learns of a lock that was free.
    pub(crate) fn learn_free(&mut self) {
        self.misses = self.misses.saturating_sub(1);
    }

    /// Whether the last legs were all short.
    pub(crate) fn has_short_legs(&self) -> bool {
        self.short_legs >= SHORT_LEGS
    }

    /// Naps, twice as long as the last time, up to a millisecond, or up to some ten microseconds.
    pub(crate) fn rest<R: Wait>(&mut self, rt: &R, bell: &Bell, is_idle: bool) {
        let most = if is_idle { LAST_NAP } else { BRIEF_NAP };
        self.is_long = false;
        self.misses = self.misses.saturating_add(1).max(FIRST_NAP).min(most);
        bell.nap(rt, nap_after(self.misses));
    }

    /// Waits after a miss: a moment with a long leg, else twice as long as the last time, and in the end by naps. So
    /// of workers with short legs one goes on nearly alone, and its book stays in the cache of one processor.
    pub(crate) fn wait<R: Wait>(&mut self, rt: &R, bell: &Bell) {
        if bell.is_crowded {
            yield_now();
        }
        if self.is_long {
            bell.pause(SHORT_PAUSE);
            return;
        }
        self.misses = self.misses.saturating_add(1).min(LAST_NAP);
        if self.misses < FIRST_NAP {
            bell.pause(SHORT_PAUSE << self.misses);
        } else {
            bell.nap(rt, nap_after(self.misses));
        }
    }
}

/// Takes a lock: tries it for a while, before the thread sleeps until it is free.
pub(crate) fn take<'a, T, R: Wait>(
    rt: &R,
    lock: &'a Mutex<T>,
    bell: &Bell,
    round: &mut Round,
) -> MutexGuard<'a, T> {
    if let Some(guard) = lock.try_lock() {
        round.learn_free();
        return guard;
    }
    let tries = if bell.is_crowded {
        CROWDED_TRIES
    } else {
        TRIES
    };
    for _ in 0..tries {
        round.wait(rt, bell);
        if let Some(guard) = lock.try_lock() {
            return guard;
        }
    }
    lock.lock(rt)
}

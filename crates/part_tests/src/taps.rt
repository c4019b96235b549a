//! Taps and what they note, by trace_tap.

use std::alloc::{AllocError, Global};
use std::sync::Arc;
use std::sync::atomic::{AtomicU64, Ordering};
use std::test::Fail;
use trace_tap::{Deed, LastN, LineProfile, Record, Tap, note_all};

/// Counts the events that it notes, where the test sees the count, and keeps no list.
#[derive(Drop)]
struct Counter {
    told: Arc<AtomicU64>,
}

impl Tap for Counter {
    ghost use Rattle.std.specs.Prelude.{[]};

    ghost notes = { λ _. record { list = []; after = λ list seen. [] } };

    fn note(&mut self, _seen: &Record) {
        self.told.fetch_add(1, Ordering::SeqCst);
    }

    fn len(&self) -> u32 {
        0
    }

    fn at(&self, _place: u32) -> Option<u64> {
        None
    }
}

/// Such a tap, and its count.
fn counting_tap(alloc: Global) -> Result<(Arc<AtomicU64>, Box<Counter>), AllocError> {
    let told = Arc::new(alloc, AtomicU64::new(0))?;
    let tap = Counter {
        told: Arc::try_clone(&told)?,
    };
    Ok((told, Box::new(alloc, tap)?))
}

fn last_two(alloc: Global) -> Result<Box<LastN>, AllocError> {
    Ok(Box::new(alloc, LastN::new(alloc, 2)?)?)
}

fn one_line(alloc: Global) -> Result<Box<LineProfile>, AllocError> {
    Ok(Box::new(alloc, LineProfile::new(alloc, 1)?)?)
}

/// The deed, the tile, the line, how many tasks were aborted, and how many commits there are.
type Noted = (Deed, u32, Option<u32>, u32, u32);

static NOTED: [Noted; 7] = [
    (Deed::Dispatch, 1, None, 3, 0),
    (Deed::Access, 1, Some(0), 2, 0),
    (Deed::Access, 0, Some(u32::MAX), 1, 0),
    (Deed::Access, 0, None, 9, 0),
    (Deed::Abort, 1, Some(0), 4, 0),
    (Deed::Access, 1, Some(1), 5, 1),
    (Deed::Commit, 0, None, 0, 2),
];

fn record_of((deed, tile, line, aborted, commits): Noted) -> Record {
    Record {
        deed,
        tile,
        line,
        aborted,
        commits,
    }
}

/// The taps note all events.
fn tell_all<T: Tap>(taps: &mut [T]) {
    for noted in &NOTED {
        note_all(taps, &record_of(*noted));
    }
}

/// Whether the list of a tap has these numbers.
fn has_list<T: Tap>(tap: &T, list: &[u64]) -> bool {
    for (place, number) in (0..tap.len()).zip(list) {
        if tap.at(place) != Some(*number) {
            return false;
        }
    }
    tap.len() as usize == list.len() && tap.at(tap.len()).is_none()
}

#[test]
fn a_new_tap_has_counted_nothing(rt: HostRuntime) -> Result<(), Fail> {
    let last_two = last_two(rt.alloc())?;
    assert!(rt; has_list(&*last_two, &[]));
    let one_line = one_line(rt.alloc())?;
    assert!(rt; has_list(&*one_line, &[0, 0]));
    Ok(())
}

#[test]
fn the_last_records_are_kept_and_each_is_noted(rt: HostRuntime) -> Result<(), Fail> {
    let (told, counter) = counting_tap(rt.alloc())?;
    let mut taps: [Box<dyn Tap + Send>; 2] = [last_two(rt.alloc())?, counter];
    tell_all(&mut taps);
    assert!(rt; has_list(&taps[0], &[2, 1, 2, 5, 1, 6, 0, 0, 0, 2]));
    assert!(rt; has_list(&taps[1], &[]));
    assert_eq!(rt; told.load(Ordering::SeqCst), 7);
    Ok(())
}

#[test]
fn accesses_count_what_they_took_back(rt: HostRuntime) -> Result<(), Fail> {
    let mut taps: [Box<dyn Tap + Send>; 2] = [last_two(rt.alloc())?, one_line(rt.alloc())?];
    tell_all(&mut taps);
    assert!(rt; has_list(&taps[1], &[2, 6]));
    Ok(())
}

/// The numbers of an event at the greatest line.
static NUMBERS: [(u32, Option<u64>); 6] = [
    (0, Some(2)),
    (1, Some(3)),
    (2, Some(0x1_0000_0000)),
    (3, Some(4)),
    (4, Some(5)),
    (5, None),
];

#[test]
fn a_record_has_five_numbers(rt: HostRuntime) -> Result<(), Fail> {
    let mut tap = LastN::new(rt.alloc(), 4096)?;
    tap.note(&record_of((Deed::Access, 3, Some(u32::MAX), 4, 5)));
    assert_eq!(rt; tap.len(), 5);
    for (place, number) in &NUMBERS {
        assert_eq!(rt; tap.at(*place), *number, "at {place}");
    }
    Ok(())
}

#[test]
fn deeds_are_numbered_in_their_order(rt: HostRuntime) {
    assert_eq!(rt; Deed::Coalesce.code(), 7);
}

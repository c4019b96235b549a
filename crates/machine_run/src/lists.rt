//! What the taps of a book saw.

ghost use Rattle.std.specs.Prelude.{◌≡◌, map, option_map, slice_get, IfOk};
ghost use Rattle.outcome_law.specs.conflict_book.BookViews.{view_of};
ghost use Rattle.machine_run.specs.Played.{tap_lists};

use crate::conflict_book::Book;
use place_policy::Placer;
use rv_core::Naming;
use std::alloc::{AllocError, Global};
use trace_tap::Tap;

/// The list of a tap; None exactly past the last tap.
fn list_of<N: Naming, P: Placer, T: Tap>(
    alloc: Global,
    book: &Book<N, P, T>,
    tap: usize,
) -> Result<Option<Vec<u64>>, AllocError>
    ensures { let lists = tap_lists (view_of P.policy T.notes book.now) in
        IfOk result (λ found. option_map (λ list. list.items) found ≡ slice_get lists tap) }
{
    let Some(len) = book.tap_len(tap) else {
        return Ok(None);
    };
    let mut list = Vec::new(alloc);
    for place in 0..len {
        match book.tap_at(tap, place) {
            Some(number) => list.push(number)?,
            None => unreachable!(),
        }
    }
    Ok(Some(list))
}

/// The lists of all taps. `AllocError` where memory runs out for them, as for those of 2^64 - 1 taps.
pub(crate) fn lists_of<N: Naming, P: Placer, T: Tap>(
    alloc: Global,
    book: &Book<N, P, T>,
) -> Result<Vec<Vec<u64>>, AllocError>
    ensures { let lists = tap_lists (view_of P.policy T.notes book.now) in
        IfOk result (λ told. map (λ list. list.items) told.items ≡ lists) }
{
    let mut told = Vec::new(alloc);
    for tap in 0..usize::MAX {
        let Some(list) = list_of(alloc, book, tap)? else {
            return Ok(told);
        };
        told.push(list)?;
    }
    Err(AllocError)
}

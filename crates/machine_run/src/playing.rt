//! A script is played from the opening on.

ghost use Rattle.std.specs.Prelude.{◌≡◌, All, List, map, IfOk, IsSomeAnd, OnErr};
ghost use Rattle.guest_image.specs.ImageValue.{IsImage};
ghost use Rattle.place_policy.specs.Policy.{Policy};
ghost use Rattle.trace_tap.specs.TapValue.{TapValue};
ghost use Rattle.outcome_law.specs.spec_state.declared.settings.Settings.{Settings};
ghost use Rattle.outcome_law.specs.spec_state.Settings.{IsNamed, IsValid};
ghost use Rattle.outcome_law.specs.event_def.Closing.{Closes};
ghost use Rattle.outcome_law.specs.event_def.Opening.{IsOpening};
ghost use Rattle.outcome_law.specs.conflict_book.BookViews.{machine_view, view_of};
ghost use Rattle.outcome_law.specs.step_script.Playing.{PlaysSome};
ghost use Rattle.outcome_law.specs.step_script.Ranges.{ActIsInRange};
ghost use Rattle.machine_run.specs.Halted.{IsLeftOf};
ghost use Rattle.machine_run.specs.Played.{IsPlayedOrPart, IsTracedOrPart, LeavesTapLists, StandsAt};

use crate::conflict_book::Book;
use crate::left::{Ran, leave};
use crate::lists::lists_of;
use crate::serial_machine::End;
use crate::spec_state::Settings;
use crate::step_script::{Act, Said, play};
use guest_image::Image;
use place_policy::Placer;
use rv_core::Naming;
use std::alloc::{AllocError, Global};
use trace_tap::Tap;

/// A script that was played: the run that it left, and what was said of each act; the end is None where memory ran
/// out on the way.
pub struct Played {
    /// The run.
    pub ran: Ran,
    /// What was said of each act; nothing where memory ran out on the way.
    pub said: Vec<Said>,
}

/// A script that was played: the run that it left, and the numbers of each tap's list; the end is None where memory
/// ran out on the way, or for the lists.
pub struct Traced {
    /// The run.
    pub ran: Ran,
    /// The numbers of each tap; nothing where memory ran out on the way, or for the lists.
    pub lists: Vec<Vec<u64>>,
}

/// Plays a script on the machine of these settings, from its opening with an image, these placers and these taps.
/// Where memory runs out on the way, the run is that of the acts that were played. `AllocError` where it runs out for
/// the opening.
pub fn play_script<N: Naming, P: Placer, T: Tap>(
    alloc: Global,
    image: &Image,
    settings: Settings,
    script: &[Act],
    placers: Vec<P>,
    taps: Vec<T>,
) -> Result<Played, AllocError>
    requires fits { IsImage image.now }
    requires valid { IsValid settings }
    requires named { IsNamed image.now settings N.image N.budget N.commits }
    requires within { All (ActIsInRange settings.tiles settings.cores) script.now }
    ensures played { let serving = map P.policy placers.items in
        let noting = map T.notes taps.items in
        IfOk result (IsPlayedOrPart N image.now settings script.now serving noting) }
    ensures left { IfOk result (λ p. IsLeftOf image.now settings.commits settings.budget p.ran) }
{
    let book = Book::<N, P, T>::begin(alloc, image, settings, placers, taps)?;
    Ok(play_begun(alloc, image, book, script))
}

/// Plays a script on a book that was begun, and closes it. The run is kept, also where memory runs out on the way.
fn play_begun<N: Naming, P: Placer, T: Tap>(
    alloc: Global,
    image: &Image,
    book: Book<N, P, T>,
    script: &[Act],
) -> Played
    requires fits { IsImage N.image }
    requires image { image.now ≡ N.image }
    requires within { let settings = (machine_view book).settings in
        All (ActIsInRange settings.tiles settings.cores) script.now }
    ensures played { let opening = view_of P.policy T.notes book in
        (settings : Settings) (placers : List Policy) (taps : List TapValue)
        → IsOpening N.image settings placers taps opening
        → IsPlayedOrPart N N.image settings script.now placers taps result }
    ensures left { IsLeftOf N.image N.commits N.budget result.ran }
{
    let mut book = book;
    match play(alloc, image, &mut book, script) {
        Ok(said) => Played {
            ran: leave_standing(book),
            said,
        },
        Err(AllocError) => Played {
            ran: leave(book, None),
            said: Vec::new(alloc),
        },
    }
}

/// Plays a script for its taps, and returns what they saw.
pub fn trace_script<N: Naming, P: Placer, T: Tap>(
    alloc: Global,
    image: &Image,
    settings: Settings,
    script: &[Act],
    placers: Vec<P>,
    taps: Vec<T>,
) -> Result<Traced, AllocError>
    requires fits { IsImage image.now }
    requires valid { IsValid settings }
    requires named { IsNamed image.now settings N.image N.budget N.commits }
    requires within { All (ActIsInRange settings.tiles settings.cores) script.now }
    ensures traced { let serving = map P.policy placers.items in
        let noting = map T.notes taps.items in
        IfOk result (IsTracedOrPart N image.now settings script.now serving noting) }
    ensures left { IfOk result (λ t. IsLeftOf image.now settings.commits settings.budget t.ran) }
{
    let book = Book::<N, P, T>::begin(alloc, image, settings, placers, taps)?;
    Ok(trace_begun(alloc, image, book, script))
}

/// Plays a script on a book that was begun, returns what its taps saw, and closes it. The run is kept, also if memory
/// runs out on the way, or for what the taps saw.
fn trace_begun<N: Naming, P: Placer, T: Tap>(
    alloc: Global,
    image: &Image,
    book: Book<N, P, T>,
    script: &[Act],
) -> Traced
    requires fits { IsImage N.image }
    requires image { image.now ≡ N.image }
    requires within { let settings = (machine_view book).settings in
        All (ActIsInRange settings.tiles settings.cores) script.now }
    ensures traced { let opening = view_of P.policy T.notes book in
        (settings : Settings) (placers : List Policy) (taps : List TapValue)
        → IsOpening N.image settings placers taps opening
        → IsTracedOrPart N N.image settings script.now placers taps result }
    ensures left { IsLeftOf N.image N.commits N.budget result.ran }
{
    let mut book = book;
    match play_and_tell(alloc, image, &mut book, script) {
        Ok(lists) => Traced {
            ran: leave_standing(book),
            lists,
        },
        Err(AllocError) => Traced {
            ran: leave(book, None),
            lists: Vec::new(alloc),
        },
    }
}

/// Plays a script on a book, and then returns the lists of its taps. If memory runs out, some first acts were played,
/// or all.
fn play_and_tell<N: Naming, P: Placer, T: Tap>(
    alloc: Global,
    image: &Image,
    book: &mut Book<N, P, T>,
    script: &[Act],
) -> Result<Vec<Vec<u64>>, AllocError>
    requires image { image.now ≡ N.image }
    requires within { let settings = (machine_view book.old).settings in
        All (ActIsInRange settings.tiles settings.cores) script.now }
    ensures told { let old = view_of P.policy T.notes book.old in
        let new = view_of P.policy T.notes book.new in
        IfOk result (λ lists. LeavesTapLists N N.image script.now old (map (λ list. list.items) lists.items) new) }
    ensures out_of_memory { let old = view_of P.policy T.notes book.old in
        let new = view_of P.policy T.notes book.new in
        OnErr result (PlaysSome N N.image script.now old new) }
{
    play(alloc, image, book, script)?;
    lists_of(alloc, book)
}

/// Closes a book, at the end of its run or, where that isn't over, as unfinished.
fn leave_standing<N: Naming, P: Placer, T: Tap>(book: Book<N, P, T>) -> Ran
    requires fits { IsImage N.image }
    ensures closes { Closes (view_of P.policy T.notes book) result.closed }
    ensures stands { let view = machine_view book in
        IsSomeAnd result.end (StandsAt view) }
    ensures left { IsLeftOf N.image N.commits N.budget result }
{
    let end = stand(&book);
    leave(book, Some(end))
}

/// The end of the run of a book, or `Unfinished` if it isn't over.
fn stand<N: Naming, P: Placer, T: Tap>(book: &Book<N, P, T>) -> End
    ensures { StandsAt (machine_view book.now) result }
{
    match book.end() {
        Some(end) => end,
        None => End::Unfinished,
    }
}

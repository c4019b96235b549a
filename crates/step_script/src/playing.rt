//! A script that is played on a book.

ghost use Rattle.std.specs.Prelude.{◌≡◌, All, IfOk, List, OnErr};
ghost use Rattle.conflict_book.specs.BookViews.{machine_view, view_of};
ghost use Rattle.step_script.specs.Playing.{Does, DoesAdvance, HeldLeg, Plays, PlaysSome};
ghost use Rattle.step_script.specs.Ranges.{ActIsInRange};

use crate::act::Act;
use crate::event_def::{Advance, Reply};
use crate::player::Player;
use crate::saying::{Said, Word};
use conflict_book::Book;
use guest_image::Image;
use place_policy::Placer;
use rv_core::Naming;
use std::alloc::{AllocError, Global};
use trace_tap::Tap;

/// `advance`: the event for the least task is made. The book's own call looks for that task once, where asking for an
/// advance and then making it looks several times; a stopped book answers `Memory` even if the run is over.
fn advance<N: Naming, P: Placer, T: Tap>(
    image: &Image,
    book: &mut Book<N, P, T>,
) -> Result<Said, AllocError>
    requires image { image.now ≡ N.image }
    ensures advances { let old = view_of P.policy T.notes book.old in
        let new = view_of P.policy T.notes book.new in
        IfOk result (λ said. (held : List HeldLeg) → DoesAdvance N N.image
        (record { book = old; held = held }) said (record { book = new; held = held })) }
    ensures out_of_memory { OnErr result (view_of P.policy T.notes book.new ≡ view_of P.policy T.notes book.old) }
    ensures settings { let old = view_of P.policy T.notes book.old in
        (machine_view book.new).settings ≡ old.view.settings }
{
    match book.advance(image) {
        Advance::Moved { aborted } => Ok(Said {
            word: Word::Moved,
            aborted,
        }),
        Advance::Committed => Ok(Said {
            word: Word::Committed,
            aborted: 0,
        }),
        Advance::Ended(_) => Ok(Said {
            word: Word::Plain(Reply::Ended),
            aborted: 0,
        }),
        Advance::Memory => Err(AllocError),
    }
}

/// Plays one act, and returns its reply.
fn play_act<N: Naming, P: Placer, T: Tap>(
    player: &mut Player<N>,
    image: &Image,
    book: &mut Book<N, P, T>,
    act: Act,
) -> Result<Said, AllocError>
    requires image { image.now ≡ N.image }
    requires within { let settings = (machine_view book.old).settings in
        ActIsInRange settings.tiles settings.cores act }
    ensures does { let old = view_of P.policy T.notes book.old in
        let new = view_of P.policy T.notes book.new in
        IfOk result (λ said. Does N N.image act (record { book = old; held = player.old.held }) said
        (record { book = new; held = player.new.held })) }
    ensures out_of_memory { OnErr result (view_of P.policy T.notes book.new ≡ view_of P.policy T.notes book.old) }
    ensures settings { let old = view_of P.policy T.notes book.old in
        (machine_view book.new).settings ≡ old.view.settings }
{
    if let Act::Advance = act {
        return advance(image, book);
    }
    let asked = player.ask(image, book, act)?;
    let applied = player.make(book, asked);
    match applied.reply {
        Reply::Memory => Err(AllocError),
        reply => Ok(Said {
            word: Word::Plain(reply),
            aborted: applied.aborted,
        }),
    }
}

/// Plays acts one after another; returns the reply to each. If memory runs out the book is as the acts before left it.
pub fn play<N: Naming, P: Placer, T: Tap>(
    alloc: Global,
    image: &Image,
    book: &mut Book<N, P, T>,
    acts: &[Act],
) -> Result<Vec<Said>, AllocError>
    requires image { image.now ≡ N.image }
    requires within { let settings = (machine_view book.old).settings in
        All (ActIsInRange settings.tiles settings.cores) acts.now }
    ensures plays { let old = view_of P.policy T.notes book.old in
        let new = view_of P.policy T.notes book.new in
        IfOk result (λ said. Plays N N.image acts.now old said.items new) }
    ensures out_of_memory { let old = view_of P.policy T.notes book.old in
        let new = view_of P.policy T.notes book.new in
        OnErr result (PlaysSome N N.image acts.now old new) }
{
    // Memory for all replies is allocated first, so that no act is played whose reply has no room.
    let mut said = Vec::with_capacity(alloc, acts.len())?;
    let mut player = Player::new(alloc, image, book);
    for act in acts {
        let one = play_act(&mut player, image, book, *act)?;
        said.push(one)?;
    }
    Ok(said)
}

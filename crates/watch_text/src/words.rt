//! The words of lines.

ghost use Rattle.std.specs.Prelude.{◌≡◌};
ghost use Rattle.script_text.specs.Replies.{reply_text};
ghost use Rattle.script_text.specs.step_script.Asking.{asks_of};
ghost use Rattle.watch_text.specs.Fields.{filter_word, kind_word};
ghost use Rattle.watch_text.specs.Requests.{act_word, do_word, place_word};
ghost use Rattle.watch_text.specs.Views.{end_word, status_word};
ghost use Rattle.rv_core.specs.LegValue.{LegValue};

use crate::conflict_book::Legless;
use crate::event_def::Reply;
use crate::spec_state::Status;
use crate::step_script::{Act, Asked};
use guest_image::Kind;
use line_table::FilterKind;
use run_journal::End;
use rv_core::Naming;
use task_desc::Place;

fn act_word(act: Act) -> &'static str
    ensures { result.now ≡ act_word act }
{
    match act {
        Act::Dispatch(_) => "dispatch",
        Act::Step(_, _) => "step",
        Act::Take(_, _) => "take",
        Act::Give(_, _) => "give",
        Act::Abort(_) => "abort",
        Act::Commit => "commit",
        Act::Coalesce(_) => "coalesce",
        Act::Split(_) => "split",
        Act::Advance => "advance",
    }
}

/// The word of the event that is handed in, or of the act where none is.
pub(crate) fn do_word<N: Naming>(act: Act, asked: &Asked) -> &'static str
    ensures { (leg : LegValue) → result.now ≡ do_word act (asks_of {N = N} asked.now leg) }
{
    match asked {
        Asked::Legless(Legless::Dispatch { .. }) => "dispatch",
        Asked::Legless(Legless::Abort { .. }) => "abort",
        Asked::Legless(Legless::Commit) => "commit",
        Asked::Legless(Legless::Coalesce { .. }) => "coalesce",
        Asked::Legless(Legless::Split { .. }) => "split",
        Asked::Ready { .. } => "step",
        Asked::Says(_) => act_word(act),
    }
}

pub(crate) fn filter_word(kind: FilterKind) -> &'static str
    ensures { result.now ≡ filter_word kind }
{
    match kind {
        FilterKind::Modulo => "modulo",
        FilterKind::Bloom => "bloom",
        FilterKind::Exact => "exact",
    }
}

pub(crate) fn kind_word(kind: Kind) -> &'static str
    ensures { result.now ≡ kind_word kind }
{
    match kind {
        Kind::Ordered => "ordered",
        Kind::Unordered => "unordered",
    }
}

pub(crate) fn place_word(place: Place) -> &'static str
    ensures { result.now ≡ place_word place }
{
    match place {
        Place::Same => "same",
        Place::Sub => "sub",
        Place::Super => "super",
    }
}

pub(crate) fn reply_word(reply: Reply) -> &'static str
    ensures { result.now ≡ reply_text reply }
{
    match reply {
        Reply::Ok => "ok",
        Reply::Empty => "empty",
        Reply::Busy => "busy",
        Reply::Stall => "stall",
        Reply::Stale => "stale",
        Reply::Firm => "firm",
        Reply::Ended => "ended",
        Reply::Memory => "memory",
    }
}

pub(crate) fn status_word(status: Status) -> &'static str
    ensures { result.now ≡ status_word status }
{
    match status {
        Status::Idle => "idle",
        Status::Running { .. } => "running",
        Status::Trapped { .. } => "trapped",
        Status::Finished => "finished",
    }
}

pub(crate) fn end_word(end: End) -> &'static str
    ensures { result.now ≡ end_word end }
{
    match end {
        End::Normal => "normal",
        End::Trap { .. } => "trap",
        End::Limit => "limit",
        End::Unfinished => "open",
    }
}

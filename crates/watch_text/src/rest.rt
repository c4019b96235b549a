//! The rest of a line behind its event: the reply, and what changed.

ghost use Rattle.std.specs.Prelude.{◌≡◌, ◌++◌, OnOk};
ghost use Rattle.std.specs.String.{string_bytes};
ghost use Rattle.rv_core.specs.LegValue.{LegValue};
ghost use Rattle.script_text.specs.step_script.Asking.{asks_of};
ghost use Rattle.watch_text.specs.Changes.{change_by, change_text, own_text, reply_part, taken_text};
ghost use Rattle.watch_text.specs.Lines.{rest_text};
ghost use Rattle.watch_text.specs.Moments.{task_of};

use crate::about::About;
use crate::answer::Answer;
use crate::change::put_taken;
use crate::event_def::Reply;
use crate::fields::{put_field, put_text, put_word_field};
use crate::own::put_own;
use crate::spec_state::{Effect, State};
use crate::step_script::Asked;
use crate::words::reply_word;
use rv_core::Naming;
use std::alloc::AllocError;

/// The reply, and how many events were made so far.
#[tactic(auto, unfolding(crate::specs::Changes::reply_part))]
fn put_reply(line: &mut String, reply: Reply, events: u64) -> Result<(), AllocError>
    ensures { OnOk result (string_bytes line.new ≡ string_bytes line.old ++ reply_part reply events) }
{
    put_word_field(line, ",\"reply\":\"", reply_word(reply))?;
    put_field(line, ",\"n\":", events)
}

/// Puts what an event changed: what it aborted and spilled, and what it did beside that.
fn put_made<N: Naming>(
    line: &mut String,
    state: &State<N>,
    asked: &Asked,
    about: &About,
    effect: &Effect,
    answer: &Answer,
) -> Result<(), AllocError>
    ensures { (leg : LegValue) → OnOk result (string_bytes line.new ≡ string_bytes line.old
        ++ (taken_text effect.now answer.now.aborted ++ own_text state.now.view effect.now.arrived answer.now.output
        (asks_of {N = N} asked.now leg) (task_of about.now) about.now.request)) }
{
    put_taken(line, state.alloc(), effect, answer.aborted)?;
    put_own(line, state, asked, about, effect.arrived(), answer.output)
}

/// What an event that was made changed.
fn put_change<N: Naming>(
    line: &mut String,
    state: &State<N>,
    asked: &Asked,
    about: &About,
    effect: &Effect,
    answer: &Answer,
) -> Result<(), AllocError>
    ensures { (leg : LegValue) → OnOk result (string_bytes line.new ≡ string_bytes line.old
        ++ change_text effect.now answer.now.output state.now.view (asks_of {N = N} asked.now leg) (task_of about.now)
        about.now.request answer.now.aborted) }
{
    match *asked {
        Asked::Says(_) => Ok(()),
        Asked::Legless(_) => put_made(line, state, asked, about, effect, answer),
        Asked::Ready { .. } => put_made(line, state, asked, about, effect, answer),
    }
}

/// Puts what an event changed, where its reply is `Ok`; else nothing.
fn put_change_by<N: Naming>(
    line: &mut String,
    state: &State<N>,
    asked: &Asked,
    about: &About,
    effect: &Effect,
    answer: &Answer,
) -> Result<(), AllocError>
    ensures { (leg : LegValue) → OnOk result (string_bytes line.new ≡ string_bytes line.old
        ++ change_by answer.now.reply (change_text effect.now answer.now.output state.now.view
        (asks_of {N = N} asked.now leg) (task_of about.now) about.now.request answer.now.aborted)) }
{
    match answer.reply {
        Reply::Ok => put_change(line, state, asked, about, effect, answer),
        Reply::Empty => Ok(()),
        Reply::Busy => Ok(()),
        Reply::Stall => Ok(()),
        Reply::Stale => Ok(()),
        Reply::Firm => Ok(()),
        Reply::Ended => Ok(()),
        Reply::Memory => Ok(()),
    }
}

/// The rest of a line behind its event: the reply, how many events were made so far, and what changed; `effect` has
/// what the event did beside its one change.
pub fn put_rest<N: Naming>(
    line: &mut String,
    state: &State<N>,
    asked: &Asked,
    about: &About,
    effect: &Effect,
    answer: &Answer,
) -> Result<(), AllocError>
    ensures { (leg : LegValue) → OnOk result (string_bytes line.new ≡ string_bytes line.old
        ++ rest_text effect.now answer.now.output state.now.view (asks_of {N = N} asked.now leg) (task_of about.now)
        about.now.request answer.now.reply answer.now.aborted answer.now.events) }
{
    put_reply(line, answer.reply, answer.events)?;
    put_change_by(line, state, asked, about, effect, answer)?;
    put_text(
        line,
        "}
",
    )
}

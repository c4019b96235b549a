//! The lines of replies.

ghost use Rattle.std.specs.Prelude.{◌≡◌, ◌≤◌, length};
ghost use Rattle.sim_io.specs.Parts.{Writes};
ghost use Rattle.step_script.specs.declared.saying.Word.TheVariants.{Plain};
ghost use Rattle.script_text.specs.Replies.{reply_line, reply_lines, reply_text, word_text};

use crate::event_def::Reply;
use crate::line::put_count;
use report_text::{Line, put};
use sim_io::{Failed, Sink, write_all};
use step_script::{Said, Word};

/// The word for a reply.
fn reply_word(reply: Reply) -> &'static [u8]
    ensures text { result.now ≡ reply_text reply }
    ensures short { length result.now ≤ 9 }
{
    match reply {
        Reply::Ok => b"ok",
        Reply::Empty => b"empty",
        Reply::Busy => b"busy",
        Reply::Stall => b"stall",
        Reply::Stale => b"stale",
        Reply::Firm => b"firm",
        Reply::Ended => b"ended",
        Reply::Memory => b"memory",
    }
}

/// The word for an act.
fn word_of(word: Word) -> &'static [u8]
    ensures text { result.now ≡ word_text word }
    ensures short { length result.now ≤ 9 }
{
    match word {
        Word::Plain(reply) => reply_word(reply),
        Word::Moved => b"moved",
        Word::Committed => b"committed",
    }
}

/// The line of an act.
#[tactic(auto, unfolding(crate::specs::Replies::reply_line))]
fn line_of(said: Said) -> Line
    ensures { result.items ≡ reply_line said }
{
    let mut line = Line::new();
    put(&mut line, word_of(said.word));
    put(&mut line, b" ");
    put_count(&mut line, u64::from(said.aborted));
    put(&mut line, b"\n");
    line
}

/// The line of a reply to an act that aborted no task.
fn quiet_reply(reply: Reply) -> &'static [u8]
    ensures { result.now ≡ reply_line (record { word = Plain reply; aborted = 0 }) }
{
    match reply {
        Reply::Ok => b"ok 0\n",
        Reply::Empty => b"empty 0\n",
        Reply::Busy => b"busy 0\n",
        Reply::Stall => b"stall 0\n",
        Reply::Stale => b"stale 0\n",
        Reply::Firm => b"firm 0\n",
        Reply::Ended => b"ended 0\n",
        Reply::Memory => b"memory 0\n",
    }
}

/// The line of an act that aborted no task, which most acts are.
fn quiet_line(word: Word) -> &'static [u8]
    ensures { result.now ≡ reply_line (record { word = word; aborted = 0 }) }
{
    match word {
        Word::Plain(reply) => quiet_reply(reply),
        Word::Moved => b"moved 0\n",
        Word::Committed => b"committed 0\n",
    }
}

fn write_reply<K: Sink>(sink: &mut K, said: Said) -> Result<(), Failed>
    ensures { Writes (K.state sink.old) (K.state sink.new) result (reply_line said) }
{
    if said.aborted == 0 {
        write_all(sink, quiet_line(said.word))
    } else {
        write_all(sink, line_of(said).as_slice())
    }
}

/// Writes the replies to acts: a line for each, with its word and how many tasks it aborted. After `Failed` a prefix of
/// the text was taken.
pub fn write_replies<K: Sink>(sink: &mut K, said: &[Said]) -> Result<(), Failed>
    ensures { Writes (K.state sink.old) (K.state sink.new) result (reply_lines said.now) }
{
    for one in said {
        match write_reply(sink, *one) {
            Ok(()) => {}
            Err(failed) => return Err(failed),
        }
    }
    Ok(())
}

//! What an event changed beside the tasks that it aborted or spilled.

ghost use Rattle.std.specs.Prelude.{◌≡◌, ◌<◌, ◌++◌, OnOk, Some, drop, option_copied, option_map};
ghost use Rattle.std.specs.String.{string_bytes};
ghost use Rattle.rv_core.specs.LegValue.{LegValue};
ghost use Rattle.script_text.specs.step_script.Asking.{asks_of};
ghost use Rattle.watch_text.specs.Changes.{arrived_text, commit_text, core_of_status};
ghost use Rattle.watch_text.specs.Changes.{dispatched_text, emitted_text};
ghost use Rattle.watch_text.specs.Changes.{entry_text};
ghost use Rattle.watch_text.specs.Changes.{old_in, old_text, own_text, some_entry_text, split_name_text};
ghost use Rattle.watch_text.specs.Changes.{split_text, step_text, task_if, tile_in};
ghost use Rattle.watch_text.specs.Moments.{task_of};

use crate::about::{About, task_of};
use crate::change::{name_creator, name_index};
use crate::conflict_book::Legless;
use crate::fields::{put_core, put_field, put_hex, put_name, put_some, put_text};
use crate::serial_machine::Entry;
use crate::spec_state::{State, Status, Task, TaskId};
use crate::step_script::Asked;
use rv_core::Naming;
use std::alloc::AllocError;
use task_request::Request;

/// The core that a status names.
fn core_of_status(status: Status) -> Option<u64>
    ensures { result ≡ core_of_status status }
{
    match status {
        Status::Idle => None,
        Status::Running { core } => Some(u64::from(core)),
        Status::Trapped { core, .. } => Some(u64::from(core)),
        Status::Finished => None,
    }
}

/// The task of an id, where there is one.
fn task_if<N: Naming>(state: &State<N>, id: Option<usize>) -> Option<&Task>
    ensures { option_copied result ≡ task_if state.now.view id }
{
    match id {
        None => None,
        Some(id) => state.find(TaskId(id)),
    }
}

/// A task that was dispatched: its core, and its dispatch number.
fn put_dispatched(line: &mut String, task: Option<&Task>) -> Result<(), AllocError>
    ensures { OnOk result (string_bytes line.new ≡ string_bytes line.old
        ++ dispatched_text (option_copied task.entry)) }
{
    match task {
        None => Ok(()),
        Some(task) => {
            put_core(line, core_of_status(task.status))?;
            put_some(line, "number", task.key.tb)
        }
    }
}

/// The number that stood where a task accessed the data last.
fn last_old(task: &Task) -> Option<u64>
    ensures { result ≡ old_in task.now }
{
    match task.log.accesses().last() {
        None => None,
        Some(access) => Some(u64::from(access.old)),
    }
}

/// A task that loaded or stored: the number that stood there before.
fn put_old(line: &mut String, task: Option<&Task>) -> Result<(), AllocError>
    ensures { OnOk result (string_bytes line.new ≡ string_bytes line.old ++ old_text (option_copied task.entry)) }
{
    match task {
        None => Ok(()),
        Some(task) => put_some(line, "old", last_old(task)),
    }
}

/// The tile of the task of an id.
fn tile_of<N: Naming>(state: &State<N>, id: usize) -> Option<u64>
    ensures { result ≡ tile_in state.now.view id }
{
    match state.find(TaskId(id)) {
        None => None,
        Some(task) => Some(u64::from(task.tile)),
    }
}

/// A task that came: its id, and the tile where it stands.
fn put_arrived<N: Naming>(
    line: &mut String,
    state: &State<N>,
    arrived: Option<TaskId>,
) -> Result<(), AllocError>
    ensures { OnOk result (string_bytes line.new ≡ string_bytes line.old ++ arrived_text state.now.view arrived) }
{
    match arrived {
        None => Ok(()),
        Some(id) => {
            put_field(line, ",\"new\":", id.0 as u64)?;
            put_some(line, "in", tile_of(state, id.0))
        }
    }
}

/// The name of a task that was spilled and came back.
fn put_split_name(line: &mut String, commits: u32, task: Option<&Task>) -> Result<(), AllocError>
    ensures { OnOk result (string_bytes line.new ≡ string_bytes line.old
        ++ split_name_text commits (option_copied task.entry)) }
{
    match task {
        None => Ok(()),
        Some(task) => put_name(
            line,
            name_creator(task.creator, commits),
            name_index(task.creator),
        ),
    }
}

/// The number of an id.
fn id_of(id: Option<TaskId>) -> Option<usize>
    ensures { result ≡ option_map (λ id. id.0) id }
{
    match id {
        None => None,
        Some(id) => Some(id.0),
    }
}

/// A task that a split brought back.
fn put_split<N: Naming>(
    line: &mut String,
    state: &State<N>,
    arrived: Option<TaskId>,
) -> Result<(), AllocError>
    ensures { OnOk result (string_bytes line.new ≡ string_bytes line.old ++ split_text state.now.view arrived) }
{
    put_arrived(line, state, arrived)?;
    put_split_name(line, state.commit_count(), task_if(state, id_of(arrived)))
}

/// The entry of a task that committed.
#[tactic(auto, unfolding(crate::specs::Changes::entry_text))]
fn put_entry(line: &mut String, entry: Option<&Entry>) -> Result<(), AllocError>
    ensures { OnOk result (string_bytes line.new ≡ string_bytes line.old
        ++ some_entry_text (option_copied entry.entry)) }
{
    match entry {
        None => Ok(()),
        Some(entry) => {
            put_name(line, u64::from(entry.name.creator), entry.name.index)?;
            put_field(line, ",\"depth\":", u64::from(entry.depth))?;
            put_field(line, ",\"ts\":", u64::from(entry.ts))
        }
    }
}

/// The bytes that it emitted, where there are any.
fn put_emitted(line: &mut String, bytes: &[u8]) -> Result<(), AllocError>
    ensures { OnOk result (string_bytes line.new ≡ string_bytes line.old ++ emitted_text bytes.now) }
{
    if bytes.is_empty() {
        return Ok(());
    }
    put_text(line, ",\"output\":\"")?;
    put_hex(line, bytes)?;
    put_text(line, "\"")
}

/// The bytes of a list behind so many.
fn behind(bytes: &[u8], count: usize) -> &[u8]
    ensures { result.now ≡ drop count bytes.now }
{
    if count < bytes.len() {
        bytes.split_at(count).1
    } else {
        &[]
    }
}

/// A commit: the entry, and the bytes behind those that were there.
fn put_commit<N: Naming>(
    line: &mut String,
    state: &State<N>,
    output: usize,
) -> Result<(), AllocError>
    ensures { OnOk result (string_bytes line.new ≡ string_bytes line.old ++ commit_text state.now.view output) }
{
    put_entry(line, state.history().last())?;
    put_emitted(line, behind(state.output(), output))
}

/// What a step changed, by what its task asked for, and the task that came.
fn put_step<N: Naming>(
    line: &mut String,
    state: &State<N>,
    about: &About,
    arrived: Option<TaskId>,
) -> Result<(), AllocError>
    ensures { OnOk result (string_bytes line.new ≡ string_bytes line.old
        ++ step_text state.now.view arrived (task_of about.now) about.now.request) }
{
    match about.request {
        None => Ok(()),
        Some(Request::Load { .. }) => put_old(line, task_if(state, task_of(about))),
        Some(Request::Store { .. }) => put_old(line, task_if(state, task_of(about))),
        Some(Request::Enqueue(_)) => put_arrived(line, state, arrived),
        Some(Request::Continue) => Ok(()),
        Some(Request::MakeSub(_)) => Ok(()),
        Some(Request::Emit(_)) => Ok(()),
        Some(Request::End) => Ok(()),
        Some(Request::Trap { .. }) => Ok(()),
    }
}

/// What each event changed, where so many bytes were emitted before it.
pub(crate) fn put_own<N: Naming>(
    line: &mut String,
    state: &State<N>,
    asked: &Asked,
    about: &About,
    arrived: Option<TaskId>,
    output: usize,
) -> Result<(), AllocError>
    ensures { (leg : LegValue) → OnOk result (string_bytes line.new ≡ string_bytes line.old
        ++ own_text state.now.view arrived output (asks_of {N = N} asked.now leg) (task_of about.now)
        about.now.request) }
{
    match *asked {
        Asked::Legless(Legless::Dispatch { .. }) => {
            put_dispatched(line, task_if(state, task_of(about)))
        }
        Asked::Legless(Legless::Commit) => put_commit(line, state, output),
        Asked::Legless(Legless::Split { .. }) => put_split(line, state, arrived),
        Asked::Legless(Legless::Abort { .. }) => Ok(()),
        Asked::Legless(Legless::Coalesce { .. }) => Ok(()),
        Asked::Ready { .. } => put_step(line, state, about, arrived),
        Asked::Says(_) => Ok(()),
    }
}

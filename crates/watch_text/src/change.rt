//! The tasks that an event aborted and spilled.

ghost use Rattle.std.specs.Prelude.{◌≡◌, ◌++◌, ℕ, IfOk, OnOk};
ghost use Rattle.std.specs.String.{string_bytes};
ghost use Rattle.script_text.specs.spec_state.Fronts.{name_given};
ghost use Rattle.watch_text.specs.Changes.{aborted_text, back_text, gone_ids, lists_text, spilled_text, taken_text};

use crate::fields::put_number;
use crate::items::{ListItem, put_list};
use crate::spec_state::{Creator, Effect, SpilledTask, TakenTask};
use std::alloc::{AllocError, Global};
use std::fmt::Write;

impl ListItem for TakenTask {
    ghost text = { back_text };

    fn put(&self, line: &mut String) -> Result<(), AllocError> {
        let (id, used) = (self.id.0, self.used);
        write!(line, "[{id},{used}]")
    }
}

impl ListItem for SpilledTask {
    ghost text = { spilled_text };

    #[tactic(auto, unfolding(crate::specs::Changes::spilled_text))]
    fn put(&self, line: &mut String) -> Result<(), AllocError> {
        let (id, creator, index) = (self.id.0, self.name.creator, self.name.index);
        write!(line, "[{id},{creator},{index}]")
    }
}

/// The first number of the name that a firm task has from its creator, where so many tasks have committed.
pub(crate) fn name_creator(creator: Creator, commits: u32) -> u64
    ensures { result ≡ (name_given creator commits).creator }
{
    match creator {
        Creator::Committed { turn, .. } => u64::from(turn),
        Creator::Live { .. } => u64::from(commits) + 1,
    }
}

/// And the second one, its place among the children.
pub(crate) fn name_index(creator: Creator) -> u32
    ensures { (commits : ℕ) → result ≡ (name_given creator commits).index }
{
    match creator {
        Creator::Committed { index, .. } => index,
        Creator::Live { index, .. } => index,
    }
}

fn put_aborted(line: &mut String, aborted: u32) -> Result<(), AllocError>
    ensures { OnOk result (string_bytes line.new ≡ string_bytes line.old ++ aborted_text aborted) }
{
    if aborted == 0 {
        return Ok(());
    }
    put_number(line, "aborted", u64::from(aborted))
}

/// The ids of those tasks that are gone.
fn gone_ids(alloc: Global, back: &[TakenTask]) -> Result<Vec<usize>, AllocError>
    ensures { IfOk result (λ ids. ids.items ≡ gone_ids back.now) }
{
    let mut ids = Vec::new(alloc);
    for task in back {
        if task.gone {
            ids.push(task.id.0)?;
        }
    }
    Ok(ids)
}

/// Puts which tasks an event aborted, which of these are gone, and which it spilled.
fn put_lists(line: &mut String, alloc: Global, effect: &Effect) -> Result<(), AllocError>
    ensures { OnOk result (string_bytes line.new ≡ string_bytes line.old ++ lists_text effect.now) }
{
    put_list(line, "back", effect.back())?;
    let gone = gone_ids(alloc, effect.back())?;
    put_list(line, "gone", gone.as_slice())?;
    put_list(line, "spilled", effect.spilled())
}

/// Puts what an event aborted and spilled: how many tasks were aborted, which, which of these are gone, and which were
/// spilled.
#[tactic(auto, unfolding(crate::specs::Changes::taken_text))]
pub(crate) fn put_taken(
    line: &mut String,
    alloc: Global,
    effect: &Effect,
    aborted: u32,
) -> Result<(), AllocError>
    ensures { OnOk result (string_bytes line.new ≡ string_bytes line.old ++ taken_text effect.now aborted) }
{
    put_aborted(line, aborted)?;
    put_lists(line, alloc, effect)
}

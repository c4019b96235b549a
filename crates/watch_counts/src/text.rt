//! The line of counts.

ghost use Rattle.std.specs.Prelude.{◌≡◌, ℕ, ◌++◌, OnOk, codes, decimal, map};
ghost use Rattle.std.specs.String.{string_bytes};
ghost use Rattle.watch_text.specs.Fields.{items_text, more_items};
ghost use Rattle.watch_counts.specs.Capped.{capped, capped_counts};
ghost use Rattle.watch_counts.specs.Texts.{accesses_group, acts_group, acts_text, causes_group, count_text};
ghost use Rattle.watch_counts.specs.Texts.{counts_line};
ghost use Rattle.watch_counts.specs.Texts.{counts_text, domains_text, events_text, group_text, groups_text, list_text};
ghost use Rattle.watch_counts.specs.Texts.{lists_text, named_of, named_text, places_group, places_text, run_group};
ghost use Rattle.watch_counts.specs.Texts.{run_text, stalls_group, tasks_text, work_group};
ghost use Rattle.watch_counts.specs.Work.{work_left};

use crate::accesses::AccessCounts;
use crate::acts::ActCounts;
use crate::causes::CauseCounts;
use crate::counts::{Counts, work_left};
use crate::places::PlaceCounts;
use crate::spec_state::State;
use itoa::Buffer;
use rv_core::Naming;
use std::alloc::AllocError;

/// A number under a name.
#[derive(Clone, Copy)]
struct NamedCount {
    name: &'static str,
    count: u64,
}

/// The digits of a number.
fn put_number(line: &mut String, count: u64) -> Result<(), AllocError>
    ensures { OnOk result (string_bytes line.new ≡ string_bytes line.old ++ decimal count) }
{
    let mut buffer = Buffer::new();
    line.push_str(buffer.format(count))
}

/// A number, or that it stopped at its greatest.
#[tactic(auto, using(crate::proofs::Stopping::text_below, crate::proofs::Stopping::text_stopped))]
fn put_count(line: &mut String, count: u64) -> Result<(), AllocError>
    ensures { OnOk result (string_bytes line.new ≡ string_bytes line.old ++ count_text count) }
{
    if count < u64::MAX {
        put_number(line, count)
    } else {
        line.push_str("\"stopped\"")
    }
}

/// A number under its name.
fn put_named(line: &mut String, named: &NamedCount) -> Result<(), AllocError>
    ensures { OnOk result (string_bytes line.new ≡ string_bytes line.old ++ named_text (named_of named.now)) }
{
    line.push_str("\"")?;
    line.push_str(named.name)?;
    line.push_str("\":")?;
    put_count(line, named.count)
}

/// Numbers under their names, behind commas.
fn put_more_named(line: &mut String, group: &[NamedCount]) -> Result<(), AllocError>
    ensures { OnOk result (string_bytes line.new ≡ string_bytes line.old
        ++ more_items named_text (map named_of group.now)) }
{
    for named in group {
        line.push_str(",")?;
        put_named(line, named)?;
    }
    Ok(())
}

/// Puts numbers under their names, with commas between them, and a closing bracket.
fn put_all_named(line: &mut String, group: &[NamedCount]) -> Result<(), AllocError>
    ensures { OnOk result (string_bytes line.new ≡ string_bytes line.old
        ++ items_text named_text (map named_of group.now)) }
{
    let Some((first, rest)) = group.split_first() else {
        return Ok(());
    };
    put_named(line, first)?;
    put_more_named(line, rest)
}

/// A group of numbers under a name.
#[tactic(auto, unfolding(crate::specs::Texts::group_text))]
fn put_group(line: &mut String, name: &str, group: &[NamedCount]) -> Result<(), AllocError>
    ensures { OnOk result (string_bytes line.new ≡ string_bytes line.old
        ++ group_text name.now (map named_of group.now)) }
{
    line.push_str(",\"")?;
    line.push_str(name)?;
    line.push_str("\":{")?;
    put_all_named(line, group)?;
    line.push_str("}")
}

/// Numbers behind commas.
fn put_more_counts(line: &mut String, counts: &[u64]) -> Result<(), AllocError>
    ensures { OnOk result (string_bytes line.new ≡ string_bytes line.old ++ more_items count_text counts.now) }
{
    for count in counts {
        line.push_str(",")?;
        put_count(line, *count)?;
    }
    Ok(())
}

fn put_all_counts(line: &mut String, counts: &[u64]) -> Result<(), AllocError>
    ensures { OnOk result (string_bytes line.new ≡ string_bytes line.old ++ items_text count_text counts.now) }
{
    let Some((first, rest)) = counts.split_first() else {
        return Ok(());
    };
    put_count(line, *first)?;
    put_more_counts(line, rest)
}

/// A list of numbers under a name.
#[tactic(auto, unfolding(crate::specs::Texts::list_text))]
fn put_list(line: &mut String, name: &str, counts: &[u64]) -> Result<(), AllocError>
    ensures { OnOk result (string_bytes line.new ≡ string_bytes line.old ++ list_text name.now counts.now) }
{
    line.push_str(",\"")?;
    line.push_str(name)?;
    line.push_str("\":[")?;
    put_all_counts(line, counts)?;
    line.push_str("]")
}

fn named(name: &'static str, count: u64) -> NamedCount
    ensures { named_of result ≡ record { name = name.now; number = count } }
{
    NamedCount { name, count }
}

/// Work.
fn put_work(line: &mut String, name: &str, counts: &Counts, left: u64) -> Result<(), AllocError>
    ensures { OnOk result (string_bytes line.new ≡ string_bytes line.old
        ++ group_text name.now (work_group counts.now left)) }
{
    put_group(
        line,
        name,
        &[
            named("executed", counts.work.executed),
            named("useful", counts.work.useful),
            named("wasted", counts.work.wasted),
            named("left", left),
            named("refused", counts.work.refused),
        ],
    )
}

/// How far the story came, and what was spilled.
fn put_run(line: &mut String, name: &str, counts: &Counts) -> Result<(), AllocError>
    ensures { OnOk result (string_bytes line.new ≡ string_bytes line.old
        ++ group_text name.now (run_group counts.now)) }
{
    put_group(
        line,
        name,
        &[
            named("acts", counts.acts),
            named("rounds", counts.rounds),
            named("advances", counts.advances),
            named("opening", counts.opening),
            named("spilled", counts.spilled),
        ],
    )
}

/// What stalled.
fn put_stalls(line: &mut String, name: &str, counts: &Counts) -> Result<(), AllocError>
    ensures { OnOk result (string_bytes line.new ≡ string_bytes line.old
        ++ group_text name.now (stalls_group counts.now)) }
{
    put_group(
        line,
        name,
        &[
            named("task_queue", counts.stalls.task_queue),
            named("commit_queue", counts.stalls.commit_queue),
            named("split", counts.stalls.splits),
        ],
    )
}

/// By kind.
fn put_acts(line: &mut String, name: &str, counts: &ActCounts) -> Result<(), AllocError>
    ensures { OnOk result (string_bytes line.new ≡ string_bytes line.old
        ++ group_text name.now (acts_group counts.now)) }
{
    put_group(
        line,
        name,
        &[
            named("dispatch", counts.dispatch),
            named("step", counts.step),
            named("take", counts.take),
            named("give", counts.give),
            named("abort", counts.abort),
            named("commit", counts.commit),
            named("coalesce", counts.coalesce),
            named("split", counts.split),
            named("advance", counts.advance),
        ],
    )
}

/// Loads, stores and bytes.
fn put_accesses(line: &mut String, name: &str, counts: &AccessCounts) -> Result<(), AllocError>
    ensures { OnOk result (string_bytes line.new ≡ string_bytes line.old
        ++ group_text name.now (accesses_group counts.now)) }
{
    put_group(
        line,
        name,
        &[
            named("loads", counts.loads),
            named("stores", counts.stores),
            named("bytes", counts.bytes),
        ],
    )
}

/// By cause.
fn put_causes(line: &mut String, name: &str, counts: &CauseCounts) -> Result<(), AllocError>
    ensures { OnOk result (string_bytes line.new ≡ string_bytes line.old
        ++ group_text name.now (causes_group counts.now)) }
{
    put_group(
        line,
        name,
        &[
            named("load", counts.load),
            named("store", counts.store),
            named("commit_queue", counts.commit_queue),
            named("task_queue", counts.task_queue),
            named("core", counts.core),
            named("asked", counts.asked),
        ],
    )
}

/// Where tasks are.
fn put_places(line: &mut String, name: &str, counts: &PlaceCounts) -> Result<(), AllocError>
    ensures { OnOk result (string_bytes line.new ≡ string_bytes line.old
        ++ group_text name.now (places_group counts.now)) }
{
    put_group(
        line,
        name,
        &[
            named("queued", counts.queued),
            named("running", counts.running),
            named("stalled", counts.stalled),
            named("trapped", counts.trapped),
            named("finished", counts.finished),
            named("spilled", counts.spilled),
        ],
    )
}

/// How many events were made.
#[tactic(auto, unfolding(crate::specs::Texts::events_text))]
fn put_events(line: &mut String, events: u64) -> Result<(), AllocError>
    ensures { OnOk result (string_bytes line.new ≡ string_bytes line.old ++ events_text events) }
{
    line.push_str("{\"counts\":")?;
    put_count(line, events)
}

/// Work, and how far the story came.
#[tactic(auto, unfolding(crate::specs::Texts::run_text))]
fn put_whole_run(line: &mut String, counts: &Counts, left: u64) -> Result<(), AllocError>
    ensures { OnOk result (string_bytes line.new ≡ string_bytes line.old ++ run_text counts.now left) }
{
    put_events(line, counts.events)?;
    put_work(line, "work", counts, left)?;
    put_run(line, "run", counts)?;
    put_stalls(line, "stalls", counts)
}

/// Events and acts by kind.
#[tactic(auto, unfolding(crate::specs::Texts::acts_text))]
fn put_all_acts(line: &mut String, counts: &Counts) -> Result<(), AllocError>
    ensures { OnOk result (string_bytes line.new ≡ string_bytes line.old ++ acts_text counts.now) }
{
    put_acts(line, "made", &counts.made)?;
    put_acts(line, "told", &counts.told)?;
    put_acts(line, "passed", &counts.passed)
}

/// Puts what tasks did that committed, and those that were aborted.
#[tactic(auto, unfolding(crate::specs::Texts::tasks_text))]
fn put_tasks(line: &mut String, counts: &Counts) -> Result<(), AllocError>
    ensures { OnOk result (string_bytes line.new ≡ string_bytes line.old ++ tasks_text counts.now) }
{
    put_accesses(line, "committed", &counts.committed)?;
    put_accesses(line, "undone", &counts.undone)?;
    put_causes(line, "taken", &counts.taken)?;
    put_causes(line, "discarded", &counts.discarded)
}

/// Where tasks are.
#[tactic(auto, unfolding(crate::specs::Texts::places_text))]
fn put_all_places(line: &mut String, counts: &Counts) -> Result<(), AllocError>
    ensures { OnOk result (string_bytes line.new ≡ string_bytes line.old ++ places_text counts.now) }
{
    put_places(line, "now", &counts.standing)?;
    put_places(line, "over_events", &counts.over_events)?;
    put_places(line, "over_rounds", &counts.over_rounds)?;
    put_places(line, "greatest", &counts.greatest)
}

/// Committed tasks by depth and kind of their domain, and the subdomains that they made.
#[tactic(auto, unfolding(crate::specs::Texts::domains_text))]
fn put_domains(line: &mut String, counts: &Counts) -> Result<(), AllocError>
    ensures { OnOk result (string_bytes line.new ≡ string_bytes line.old ++ domains_text counts.now) }
{
    put_list(line, "commits_ordered", &counts.commits.ordered)?;
    put_list(line, "commits_unordered", &counts.commits.unordered)?;
    put_list(line, "made_ordered", &counts.domains.ordered)?;
    put_list(line, "made_unordered", &counts.domains.unordered)
}

/// By how long tasks are, and by tile.
#[tactic(auto, unfolding(crate::specs::Texts::lists_text))]
fn put_lists(line: &mut String, counts: &Counts) -> Result<(), AllocError>
    ensures { OnOk result (string_bytes line.new ≡ string_bytes line.old ++ lists_text counts.now) }
{
    put_list(line, "lengths", &counts.lengths)?;
    put_list(line, "tile_useful", &counts.tiles.useful)?;
    put_list(line, "tile_wasted", &counts.tiles.wasted)?;
    put_list(line, "tile_taken", &counts.tiles.taken)
}

/// All groups.
#[tactic(auto, unfolding(crate::specs::Texts::groups_text))]
fn put_groups(line: &mut String, counts: &Counts, left: u64) -> Result<(), AllocError>
    ensures { OnOk result (string_bytes line.new ≡ string_bytes line.old ++ groups_text counts.now left) }
{
    put_whole_run(line, counts, left)?;
    put_all_acts(line, counts)?;
    put_tasks(line, counts)?;
    put_all_places(line, counts)
}

/// All of the line, as the numbers stand.
#[tactic(auto, unfolding(crate::specs::Texts::counts_text))]
fn put_numbers(line: &mut String, counts: &Counts, left: u64) -> Result<(), AllocError>
    ensures { OnOk result (string_bytes line.new ≡ string_bytes line.old ++ counts_text counts.now left) }
{
    put_groups(line, counts, left)?;
    put_domains(line, counts)?;
    put_lists(line, counts)?;
    line.push_str("}\n")
}

/// Puts the line of counts behind a text, on the machine that they led to; it looks at all queued tasks once, for the
/// work that is left.
pub fn put_counts<N: Naming>(
    line: &mut String,
    counts: &Counts,
    state: &State<N>,
) -> Result<(), AllocError>
    ensures { (c : Counts) → counts.now ≡ capped_counts c
        → OnOk result (string_bytes line.new ≡ string_bytes line.old ++ counts_line c state.now.view) }
{
    put_numbers(line, counts, work_left(state))
}

//! The child that a task asks for. No call takes memory.

ghost use Rattle.std.specs.Prelude.{◌≡◌, ◌<◌, ◌*◌, ◌-◌, ◌^◌, ℕ, true, take, length, IsSome};
ghost use Rattle.task_desc.specs.declared.desc.Place.TheVariants.{Sub};
ghost use Rattle.spec_dispatch.specs.spec_state.declared.task.Creator.TheVariants.{Live};
ghost use Rattle.spec_dispatch.specs.spec_state.Tasks.{is_dispatched, sub_bit, child_domain, child_kinds};
ghost use Rattle.spec_dispatch.specs.spec_state.Tasks.{child_descriptor, idle_task};
ghost use Rattle.spec_dispatch.specs.spec_state.Stored.{IsWellFormed};

use fractal_vt::{Vt, as_domain};
use guest_image::Kind;
use spec_state::{Creator, Fresh, Task, TaskId};
use task_desc::{Place, Spawn};

/// The domain in which this one lies: its levels but the last one.
fn superdomain(domain: &Vt) -> Vt
    ensures { result ≡ take (length domain.now - 1) domain.now }
{
    let levels = domain.levels();
    let outer = levels.len().saturating_sub(1);
    match Vt::new(&levels[..outer]) {
        Some(found) => found,
        None => unreachable!(),
    }
}

/// The domain of a child.
fn domain_of(creator: &Task, place: Place) -> Vt
    requires formed { (size commits : ℕ) × IsWellFormed size commits creator.now }
    requires dispatched { is_dispatched creator.now ≡ true }
    requires made { place ≡ Sub → IsSome creator.now.sub }
    ensures { result ≡ child_domain creator.now place }
{
    match place {
        Place::Same => creator.key.domain.copy(),
        Place::Sub => as_domain(&creator.key),
        Place::Super => superdomain(&creator.key.domain),
    }
}

/// The bit of a subdomain's kind.
fn bit_of(sub: Option<Kind>) -> u16
    ensures bit { result ≡ sub_bit sub }
    ensures below { result < 2 }
{
    match sub {
        Some(Kind::Ordered) => 1,
        Some(Kind::Unordered) | None => 0,
    }
}

/// The kinds of the domains that a child is in.
fn kinds_of(creator: &Task, place: Place) -> u16
    requires formed { (size commits : ℕ) × IsWellFormed size commits creator.now }
    requires made { place ≡ Sub → IsSome creator.now.sub }
    ensures { result ≡ child_kinds creator.now place }
{
    let outer = creator.key.domain.levels().len();
    match place {
        Place::Same => creator.kinds,
        Place::Sub => creator.kinds + (bit_of(creator.sub) << (outer + 1)),
        Place::Super => creator.kinds % (1 << outer),
    }
}

/// The child that a dispatched task asks for, idle, in a tile.
pub(crate) fn child_of(version: u16, creator: &Task, id: TaskId, spawn: &Spawn, tile: u32) -> Fresh
    requires formed { (size commits : ℕ) × IsWellFormed size commits creator.now }
    requires dispatched { is_dispatched creator.now ≡ true }
    requires made { spawn.now.place ≡ Sub → IsSome creator.now.sub }
    ensures { let live = Live (record { 0 = id.0 }) (length creator.now.spawns) in
        let descriptor = child_descriptor creator.now spawn.now in
        result ≡ idle_task version descriptor live tile }
{
    Fresh {
        version,
        entry: spawn.entry,
        args: spawn.args,
        hint: spawn.hint,
        kinds: kinds_of(creator, spawn.place),
        domain: domain_of(creator, spawn.place),
        ts: spawn.ts,
        creator: Creator::Live {
            task: id,
            index: creator.spawns.as_slice().len() as u32,
        },
        tile,
    }
}

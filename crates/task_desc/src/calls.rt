//! The rules of a task's calls.

ghost use Rattle.std.specs.Prelude.{◌≡◌, ◌≢◌, ◌<◌, ◌≤◌, OnOk};
ghost use Rattle.task_desc.specs.Calls.{deepest, most_children, domain_ts, is_early, one_more_child, allowed_spawn};
ghost use Rattle.task_desc.specs.Calls.{sub_allowed};
ghost use Rattle.task_desc.specs.Calls.{byte_allowed};

use crate::desc::{Ctx, Place, Spawn};
use guest_image::Kind;

/// The greatest depth of a domain in any version of the image.
pub const MAX_DEPTH: u8 = 16;

/// The most children that a task may enqueue in any version of the image, in all its domains together.
pub const MAX_CHILDREN: u32 = 256;

/// How many bytes a task may emit.
pub const MAX_BYTES: u32 = 256;

/// The depth of the innermost domain in a version of the image: 8 in version 1, 16 in version 2.
fn deepest(version: u16) -> u8
    ensures value { result ≡ deepest version }
    ensures few { result ≤ MAX_DEPTH }
{
    if version == 2 { 16 } else { 8 }
}

/// How many children a task may enqueue in a version of the image: 64 in version 1, 256 in version 2.
fn most_children(version: u16) -> u32
    ensures value { result ≡ most_children version }
    ensures few { result ≤ MAX_CHILDREN }
{
    if version == 2 { 256 } else { 64 }
}

/// The timestamp that a domain of this kind takes a timestamp for.
fn timestamp_in(kind: Kind, ts: u32) -> u32
    ensures { result ≡ domain_ts kind ts }
{
    match kind {
        Kind::Unordered => 0,
        Kind::Ordered => ts,
    }
}

/// Whether a domain of this kind refuses a timestamp as being below a bound.
fn early(kind: Kind, ts: u32, bound: u32) -> bool
    ensures { result ≡ is_early kind ts bound }
{
    match kind {
        Kind::Unordered => false,
        Kind::Ordered => ts < bound,
    }
}

/// One child more at this timestamp, or trap 15.
fn count(ctx: &Ctx, ts: u32) -> Result<u32, u8>
    ensures value { result ≡ one_more_child ctx.now ts }
    ensures fits { OnOk result (ctx.now.children < MAX_CHILDREN) }
{
    if ctx.children < most_children(ctx.version) {
        Ok(ts)
    } else {
        Err(15)
    }
}

/// The timestamp of the child that a task enqueues by call 1 (`Same`), 2 (`Sub`) or 3 (`Super`), or the trap that comes
/// in its place:
/// - `Same`: 10 where the domain is ordered and the timestamp below the task's own, then 15 at the 65th child (the
///   257th in version 2);
/// - `Sub`: 11 where no subdomain was made, then 15;
/// - `Super`: 13 at depth 1, then 10 where the superdomain is ordered and the timestamp below the floor, then 15.
///
/// It asks nothing of the context: whatever that says, the answer is the rule's.
pub fn allow(ctx: &Ctx, spawn: &Spawn) -> Result<u32, u8>
    ensures value { result ≡ allowed_spawn ctx.now spawn.now }
    ensures fits { OnOk result (ctx.now.children < MAX_CHILDREN) }
{
    match spawn.place {
        Place::Same => {
            if early(ctx.own, spawn.ts, ctx.ts) {
                return Err(10);
            }
            count(ctx, timestamp_in(ctx.own, spawn.ts))
        }
        Place::Sub => match ctx.sub {
            None => Err(11),
            Some(kind) => count(ctx, timestamp_in(kind, spawn.ts)),
        },
        Place::Super => match ctx.outer {
            None => Err(13),
            Some(kind) => {
                if early(kind, spawn.ts, ctx.floor) {
                    return Err(10);
                }
                count(ctx, timestamp_in(kind, spawn.ts))
            }
        },
    }
}

/// The kind of the subdomain that a task makes by call 4 with this value, 0 unordered and 1 ordered; or the trap that
/// comes: 9 where the value is above 1, then 12 where a subdomain was made, then 14 at the greatest depth of the
/// version.
pub fn allow_sub(ctx: &Ctx, value: u32) -> Result<Kind, u8>
    ensures value { result ≡ sub_allowed ctx.now value }
    ensures depth { OnOk result (ctx.now.depth ≢ MAX_DEPTH) }
{
    if value > 1 {
        return Err(9);
    }
    if ctx.sub.is_some() {
        return Err(12);
    }
    if ctx.depth >= deepest(ctx.version) {
        return Err(14);
    }
    Ok(if value == 0 {
        Kind::Unordered
    } else {
        Kind::Ordered
    })
}

/// Whether a task may emit one byte more by call 5; trap 16 exactly where it has emitted 256.
pub fn allow_byte(ctx: &Ctx) -> Result<(), u8>
    ensures value { result ≡ byte_allowed ctx.now }
    ensures fits { OnOk result (ctx.now.bytes < MAX_BYTES) }
{
    if ctx.bytes < MAX_BYTES {
        Ok(())
    } else {
        Err(16)
    }
}

//! From the stop of a leg to what its task asks for.

ghost use Rattle.std.specs.Prelude.{◌≡◌, ◌<◌, ◌%◌, ◌↔◌, ℕ, slice_index, IfSome, IsNone};
ghost use Rattle.rv_core.specs.declared.state.Core.{Core};
ghost use Rattle.rv_core.specs.declared.state.Stop.TheVariants.{Call};
ghost use Rattle.rv_core.specs.Legs.{StopIsInData};
ghost use Rattle.task_desc.specs.declared.desc.Ctx.{Ctx};
ghost use Rattle.task_request.specs.Requests.{register_at, spawn_at, enqueue_at, sub_at, byte_at, call_at, request_at};
ghost use Rattle.task_request.specs.Conditions.{IsInData, KeepsLimits};

use guest_image::{DATA_START, Kind};
use rv_core::{Core, Stop, width_of_store};
use rv_table::{LoadWidth, Reg};
use task_desc::{Ctx, Place, Spawn, allow, allow_byte, allow_sub};

/// What a task asks for, where a leg of it has stopped. An ECALL is a request to the machine (RISC-V Unprivileged
/// ISA 20191213, section 2.8), which the calls' rules have allowed or made a trap of.
#[derive(Clone, Copy, Debug, PartialEq, Eq)]
pub enum Request {
    /// To go on with plain instructions: the leg did its quantum.
    Continue,
    /// To load from the data.
    Load {
        /// How many bytes it reads, and how they become a word.
        width: LoadWidth,
        /// The register that is written.
        rd: Reg,
        /// The first byte, counted from the start of the data.
        offset: u32,
    },
    /// To store to the data.
    Store {
        /// The first byte, counted from the start of the data.
        offset: u32,
        /// How many bytes it writes: 1, 2 or 4.
        width: u8,
        /// The word whose low bytes are written.
        value: u32,
    },
    /// To enqueue a child, which has the timestamp that its domain takes.
    Enqueue(Spawn),
    /// To make a subdomain of this kind.
    MakeSub(Kind),
    /// To emit a byte.
    Emit(u8),
    /// To end.
    End,
    /// Nothing: its next instruction traps, at the pc of the core.
    Trap {
        /// Why it traps, 1 to 17.
        cause: u8,
    },
}

/// The value of a register.
fn register(core: &Core, number: u8) -> u32
    requires { number < 32 }
    ensures { result ≡ register_at core.now number }
{
    match Reg::new(number) {
        Some(reg) => core.regs.get(reg),
        None => unreachable!(),
    }
}

/// The child that the registers describe, with the timestamp that is asked for.
fn spawn(core: &Core, place: Place) -> Spawn
    ensures { result ≡ spawn_at core.now place }
{
    Spawn {
        place,
        entry: register(core, 10),
        ts: register(core, 11),
        args: [register(core, 12), register(core, 13), register(core, 14)],
        hint: register(core, 15),
    }
}

/// Calls 1 to 3: a child for a domain.
fn enqueue(ctx: &Ctx, core: &Core, place: Place) -> Request
    ensures request { result ≡ enqueue_at ctx.now core.now place }
    ensures data { (size : ℕ) → IsInData size result }
    ensures limits { KeepsLimits ctx.now result }
{
    let spawn = spawn(core, place);
    match allow(ctx, &spawn) {
        Ok(ts) => Request::Enqueue(Spawn { ts, ..spawn }),
        Err(cause) => Request::Trap { cause },
    }
}

/// Call 4: a subdomain.
fn make_sub(ctx: &Ctx, core: &Core) -> Request
    ensures request { result ≡ sub_at ctx.now core.now }
    ensures data { (size : ℕ) → IsInData size result }
    ensures limits { KeepsLimits ctx.now result }
{
    match allow_sub(ctx, register(core, 10)) {
        Ok(kind) => Request::MakeSub(kind),
        Err(cause) => Request::Trap { cause },
    }
}

/// Call 5: the low byte of x10.
fn emit(ctx: &Ctx, core: &Core) -> Request
    ensures request { result ≡ byte_at ctx.now core.now }
    ensures data { (size : ℕ) → IsInData size result }
    ensures limits { KeepsLimits ctx.now result }
{
    match allow_byte(ctx) {
        Ok(()) => Request::Emit((register(core, 10) % 256) as u8),
        Err(cause) => Request::Trap { cause },
    }
}

/// An ECALL, by the number of the call in x17.
#[tactic(auto, unfolding(crate::specs::Requests::call_at))]
fn call(ctx: &Ctx, core: &Core) -> Request
    ensures request { result ≡ call_at ctx.now core.now }
    ensures data { (size : ℕ) → IsInData size result }
    ensures limits { KeepsLimits ctx.now result }
{
    match register(core, 17) {
        0 => Request::End,
        1 => enqueue(ctx, core, Place::Same),
        2 => enqueue(ctx, core, Place::Sub),
        3 => enqueue(ctx, core, Place::Super),
        4 => make_sub(ctx, core),
        5 => emit(ctx, core),
        _ => Request::Trap { cause: 9 },
    }
}

/// What a task asks for at the core where its leg stopped, under what its calls depend on now: the kind of its
/// subdomain, and how many children and bytes it has made, among them.
///
/// A load or a store has its offset in the data. A leg stops at none below the data; there the offset would be 0.
pub fn request_of(ctx: &Ctx, core: &Core, stop: &Stop) -> Request
    ensures request { result ≡ request_at ctx.now core.now stop.now }
    ensures data { (size : ℕ) → StopIsInData size stop.now → IsInData size result }
    ensures limits { KeepsLimits ctx.now result }
{
    match *stop {
        Stop::Load { width, rd, addr } => {
            let offset = addr.saturating_sub(DATA_START);
            Request::Load { width, rd, offset }
        }
        Stop::Store { width, addr, value } => Request::Store {
            offset: addr.saturating_sub(DATA_START),
            width: width_of_store(width),
            value,
        },
        Stop::Call => call(ctx, core),
        Stop::Trap { cause, .. } => Request::Trap { cause },
        Stop::Quantum => Request::Continue,
    }
}

/// What the stop of a leg asks for whatever its task has done, which is to say each stop but a call; None for a call.
#[inline(always)]
pub fn request_of_stop(stop: &Stop) -> Option<Request>
    ensures some { IfSome result (λ request. (ctx : Ctx) (core : Core) → request_at ctx core stop.now ≡ request) }
    ensures none { IsNone result ↔ (stop.now ≡ Call) }
{
    match *stop {
        Stop::Load { width, rd, addr } => {
            let offset = addr.saturating_sub(DATA_START);
            Some(Request::Load { width, rd, offset })
        }
        Stop::Store { width, addr, value } => Some(Request::Store {
            offset: addr.saturating_sub(DATA_START),
            width: width_of_store(width),
            value,
        }),
        Stop::Call => None,
        Stop::Trap { cause, .. } => Some(Request::Trap { cause }),
        Stop::Quantum => Some(Request::Continue),
    }
}

//! What a task asks for at the end of a leg, read off the leg's stop, and at a call off the registers and what the
//! task's calls depend on. No function here takes memory.

ghost use Rattle.std.specs.Prelude.{◌≡◌, ◌⊎◌, ℕ, IsNone, IfSome};
ghost use Rattle.guest_image.specs.declared.image.Kind.{Kind};
ghost use Rattle.rv_table.specs.declared.instr.LoadWidth.{LoadWidth};
ghost use Rattle.task_desc.specs.declared.desc.Spawn.{Spawn};
ghost use Rattle.task_request.specs.declared.request.Request.TheVariants.{Continue, Load, Store};
ghost use Rattle.task_request.specs.declared.request.Request.TheVariants.{Enqueue, MakeSub, Emit, Trap};
ghost use Rattle.spec_access.specs.Asking.{Asks, HasTaker};

use guest_image::Kind;
use rv_core::{Leg, Naming};
use rv_table::{LoadWidth, Reg};
use spec_state::{State, TaskId};
use task_desc::Spawn;
use task_request::{Request, request_of, request_of_stop};

/// What a task asks for at the end of the leg that it takes.
pub fn request_of_task<N: Naming>(state: &State<N>, id: TaskId, leg: &Leg<N>) -> Request
    requires takes { HasTaker state.now.view leg.now id.0 }
    ensures { Asks state.now.view leg.now id.0 result }
{
    match request_of_stop(&leg.stop()) {
        Some(request) => request,
        None => request_of(&state.ctx_of(id), leg.to(), &leg.stop()),
    }
}

/// The width, the register and the offset of a load.
pub(crate) fn load_of(request: Request) -> (LoadWidth, Reg, u32)
    requires { (width : LoadWidth) × (rd offset : ℕ) × (request ≡ Load width rd offset) }
    ensures { request ≡ Load result.0 result.1 result.2 }
{
    match request {
        Request::Load { width, rd, offset } => (width, rd, offset),
        _ => unreachable!(),
    }
}

/// The offset, the width and the value of a store.
pub(crate) fn store_of(request: Request) -> (u32, u8, u32)
    requires { (offset width value : ℕ) × (request ≡ Store offset width value) }
    ensures { request ≡ Store result.0 result.1 result.2 }
{
    match request {
        Request::Store {
            offset,
            width,
            value,
        } => (offset, width, value),
        _ => unreachable!(),
    }
}

/// The child of an enqueue.
pub(crate) fn spawn_of(request: Request) -> Spawn
    requires { (child : Spawn) × (request ≡ Enqueue child) }
    ensures { request ≡ Enqueue result }
{
    match request {
        Request::Enqueue(child) => child,
        _ => unreachable!(),
    }
}

/// The kind of a subdomain that is made.
pub(crate) fn kind_of(request: Request) -> Kind
    requires { (kind : Kind) × (request ≡ MakeSub kind) }
    ensures { request ≡ MakeSub result }
{
    match request {
        Request::MakeSub(kind) => kind,
        _ => unreachable!(),
    }
}

/// The byte that is emitted.
pub(crate) fn byte_of(request: Request) -> u8
    requires { (byte : ℕ) × (request ≡ Emit byte) }
    ensures { request ≡ Emit result }
{
    match request {
        Request::Emit(byte) => byte,
        _ => unreachable!(),
    }
}

/// The cause of a trap; None where the task did its quantum.
pub(crate) fn cause_of(request: Request) -> Option<u8>
    requires { (request ≡ Continue) ⊎ ((cause : ℕ) × (request ≡ Trap cause)) }
    ensures some { IfSome result (λ cause. request ≡ Trap cause) }
    ensures none { IsNone result → request ≡ Continue }
{
    match request {
        Request::Continue => None,
        Request::Trap { cause } => Some(cause),
        _ => unreachable!(),
    }
}

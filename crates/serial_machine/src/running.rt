//! The run of a task, leg by leg.

ghost use Rattle.std.specs.Prelude.{◌≡◌, ◌≤◌, ◌<◌, ◌^◌, ℕ, IfOk, length};
ghost use Rattle.rv_core.specs.Legs.{StopIsInData};
ghost use Rattle.task_request.specs.Conditions.{IsInData, KeepsLimits};
ghost use Rattle.task_request.specs.Requests.{request_at};
ghost use Rattle.task_request.specs.Effects.{task_at_next, after_request, after_stop};
ghost use Rattle.task_request.specs.TaskState.{context};
ghost use Rattle.serial_machine.specs.Legs.{Leads, CanCount, StopCanCount, CanPerform, FinishesRun, LegLeads};
ghost use Rattle.serial_machine.specs.Legs.{end_of_task};

use crate::progress::{Flow, Progress};
use guest_image::Image;
use rv_core::{Stop, after_load, after_other, run_plain_within, width_of_load};
use std::alloc::AllocError;
use task_desc::Ctx;
use task_request::{Request, request_of};
use undo_log::{Memory, store};

/// The greatest number of plain instructions in one leg.
const QUANTUM: u32 = 1024;

/// What the calls of a task depend on, by what it has made so far.
fn context_now(task: &Progress, ctx: &Ctx) -> Ctx
    ensures { result ≡ context ctx.now task.now.task }
{
    Ctx {
        sub: task.sub,
        children: task.spawns.len() as u32,
        bytes: task.bytes.len() as u32,
        ..*ctx
    }
}

/// Goes on to the task's next instruction.
fn pass(task: &mut Progress)
    requires { CanCount task.old.task.core.used }
    ensures task_at_next { task.new.task ≡ task_at_next task.old.task }
    ensures first { task.new.first ≡ task.old.first }
{
    task.core = after_other(&task.core);
}

/// Does what a task asks for.
fn perform(task: &mut Progress, request: Request) -> Result<Flow, AllocError>
    requires { CanPerform task.old.task request }
    ensures leads { IfOk result (λ flow. Leads (after_request task.old.task request) flow task.new.task) }
    ensures first { task.new.first ≡ task.old.first }
{
    match request {
        Request::Continue => {}
        Request::Load { width, rd, offset } => {
            let raw = task.memory.number(offset, width_of_load(width));
            task.core = after_load(&task.core, width, rd, raw);
        }
        Request::Store {
            offset,
            width,
            value,
        } => {
            store(&mut task.memory, &mut task.log, offset, width, value)?;
            pass(task);
        }
        Request::Enqueue(child) => {
            task.spawns.push(child)?;
            pass(task);
        }
        Request::MakeSub(kind) => {
            task.sub = Some(kind);
            pass(task);
        }
        Request::Emit(byte) => {
            task.bytes.push(byte)?;
            pass(task);
        }
        Request::End => {
            pass(task);
            return Ok(Flow::Ended);
        }
        Request::Trap { cause } => {
            let pc = task.core.pc;
            return Ok(Flow::Trapped { cause, pc });
        }
    }
    Ok(Flow::Continues)
}

/// What a task asks for at the stop of its leg.
fn request_now(task: &Progress, ctx: &Ctx, stop: &Stop) -> Request
    ensures request { let now = context ctx.now task.now.task in
        result ≡ request_at now task.now.task.core stop.now }
    ensures data { (size : ℕ) → StopIsInData size stop.now → IsInData size result }
    ensures limits { KeepsLimits (context ctx.now task.now.task) result }
{
    let now = context_now(task, ctx);
    request_of(&now, &task.core, stop)
}

/// Does what a task asks for at the stop of its leg.
fn obey(task: &mut Progress, ctx: &Ctx, stop: &Stop) -> Result<Flow, AllocError>
    requires used { StopCanCount task.old.task.core.used stop.now }
    requires inside { StopIsInData (length task.old.task.memory) stop.now }
    ensures leads { IfOk result (λ flow. Leads (after_stop ctx.now task.old.task stop.now) flow task.new.task) }
    ensures first { task.new.first ≡ task.old.first }
{
    let request = request_now(task, ctx, stop);
    perform(task, request)
}

fn data_size(memory: &Memory) -> u32
    requires { length memory.now < 2 ^ 32 }
    ensures { result ≡ length memory.now }
{
    memory.as_slice().len() as u32
}

/// A leg, and what ends it. The data range is that of the task's memory.
fn run_leg(task: &mut Progress, image: &Image, budget: u32, ctx: &Ctx) -> Result<Flow, AllocError>
    requires used { task.old.task.core.used ≤ budget }
    requires size { length task.old.task.memory < 2 ^ 32 }
    ensures leads { IfOk result (λ flow. LegLeads image.now budget ctx.now task.old.task flow task.new.task) }
    ensures first { task.new.first ≡ task.old.first }
{
    let size = data_size(&task.memory);
    let leg = run_plain_within(image, size, &task.core, QUANTUM, budget);
    task.core = leg.to;
    let flow = obey(task, ctx, &leg.stop)?;
    Ok(flow)
}

/// How a task's run was over.
#[derive(Clone, Copy, Debug, PartialEq, Eq)]
pub(crate) enum RunEnd {
    Done,
    Trapped { cause: u8, pc: u32 },
}

/// Runs the task to its end call or to a trap.
pub(crate) fn run(
    task: &mut Progress,
    image: &Image,
    budget: u32,
    ctx: &Ctx,
) -> Result<RunEnd, AllocError>
    requires used { task.old.task.core.used ≤ budget }
    requires size { length task.old.task.memory < 2 ^ 32 }
    ensures finishes { IfOk result
        (λ end. FinishesRun (end_of_task image.now budget ctx.now task.old.task) end task.new.task) }
    ensures first { task.new.first ≡ task.old.first }
{
    'legs: loop {
        match run_leg(task, image, budget, ctx)? {
            Flow::Continues => {}
            Flow::Ended => return Ok(RunEnd::Done),
            Flow::Trapped { cause, pc } => return Ok(RunEnd::Trapped { cause, pc }),
        }
    }
}

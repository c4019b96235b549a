//! Runs of plain instructions, how many bytes an access takes, and the core after an instruction at which a run stops.

ghost use Rattle.rv_table.specs.Regs.{set_word};
ghost use Rattle.std.specs.Prelude.{◌≡◌, ◌+◌, ◌%◌, ◌^◌, ◌-◌, ◌⊎◌, ◌<◌, ◌≤◌, OnSome};
ghost use Rattle.rv_core.specs.Memory.{load_width, store_width, is_within, is_in_stack};
ghost use Rattle.rv_core.specs.Legs.{after_other_of, after_load_of, load_next, store_next, plain_loaded};
ghost use Rattle.rv_core.specs.Legs.{effect_next, next_at, next_given};
ghost use Rattle.rv_core.specs.Legs.{IsLeg, StopIsInData, core_of_parts};

use crate::state::{Core, Head, Plain, Stop};
use guest_image::{DATA_START, Image, STACK_BYTES, STACK_START};
use rv_table::{Effect, LoadWidth, Reg, StoreWidth, decode_at, effect, loaded};
use undo_log::{number_in, write_in};

/// How many bytes a load of this width reads: 1, 2 or 4.
pub fn width_of_load(width: LoadWidth) -> u8
    ensures { result ≡ load_width width }
{
    match width {
        LoadWidth::B | LoadWidth::Bu => 1,
        LoadWidth::H | LoadWidth::Hu => 2,
        LoadWidth::W => 4,
    }
}

/// How many bytes a store of this width writes: 1, 2 or 4.
pub fn width_of_store(width: StoreWidth) -> u8
    ensures { result ≡ store_width width }
{
    match width {
        StoreWidth::B => 1,
        StoreWidth::H => 2,
        StoreWidth::W => 4,
    }
}

/// Whether an access lies wholly in the range of `size` bytes from `start` on.
pub(crate) fn is_in(start: u32, size: u32, addr: u32, len: u32) -> bool
    ensures { result ≡ is_within start size addr len }
{
    start <= addr && u64::from(addr) + u64::from(len) <= u64::from(start) + u64::from(size)
}

/// Counts one instruction, which goes to a pc.
fn pass_to(head: &mut Head, pc: u32)
    requires { head.old.used + 1 < 2 ^ 32 }
    ensures { head.new ≡ record head.old { pc = pc; used = head.old.used + 1 } }
{
    head.pc = pc;
    head.used += 1;
}

/// Executes one instruction, which goes to a pc and writes a register.
fn go(head: &mut Head, pc: u32, rd: Reg, value: u32)
    requires { head.old.used + 1 < 2 ^ 32 }
    ensures { head.new ≡ record { pc = pc; regs = set_word head.old.regs rd value; used = head.old.used + 1 } }
{
    head.regs.set(rd, value);
    pass_to(head, pc);
}

/// Whether an access lies wholly in the stack: in version 1 none does.
pub(crate) fn is_in_stack(version: u16, addr: u32, len: u32) -> bool
    ensures { result ≡ is_in_stack version addr len }
{
    version == 2 && is_in(STACK_START, STACK_BYTES, addr, len)
}

/// The number at an aligned address of the text or the stack; None where it does not lie wholly in one of them.
fn plain_load(image: &Image, stack: &[u8; 1024], addr: u32, len: u8) -> Option<u32>
    requires width { (len ≡ 1) ⊎ (len ≡ 2) ⊎ (len ≡ 4) }
    requires aligned { addr % len ≡ 0 }
    ensures { result ≡ plain_loaded image.now stack.now addr len }
{
    match image.text_load(addr, u32::from(len)) {
        Some(raw) => Some(raw),
        None => {
            if is_in_stack(image.version(), addr, u32::from(len)) {
                Some(number_in(stack, (addr - STACK_START) as usize, len))
            } else {
                None
            }
        }
    }
}

/// A trap at the core's instruction.
fn trap(head: &Head, cause: u8) -> Option<Stop>
    ensures { result ≡ Some (Stop.Trap cause head.now.pc) }
{
    Some(Stop::Trap { cause, pc: head.pc })
}

/// An aligned load: from the text or the stack it is a plain instruction.
fn load(
    image: &Image,
    data_size: u32,
    head: &mut Head,
    stack: &[u8; 1024],
    width: LoadWidth,
    rd: Reg,
    addr: u32,
) -> Option<Stop>
    requires counts { head.old.used + 1 < 2 ^ 32 }
    requires aligned { addr % load_width width ≡ 0 }
    ensures next { let raw = plain_loaded image.now stack.now addr (load_width width) in
        next_given (core_of_parts head.new stack.now) result
        ≡ load_next data_size (core_of_parts head.old stack.now) width rd addr raw }
    ensures stopped { OnSome result (head.new ≡ head.old) }
{
    let bytes = width_of_load(width);
    let len = u32::from(bytes);
    match plain_load(image, stack, addr, bytes) {
        Some(raw) => {
            let pc = head.pc.wrapping_add(4);
            go(head, pc, rd, loaded(width, raw));
            None
        }
        None => {
            if is_in(DATA_START, data_size, addr, len) {
                Some(Stop::Load { width, rd, addr })
            } else {
                trap(head, 5)
            }
        }
    }
}

/// An aligned store: to the stack it is a plain instruction.
fn store(
    image: &Image,
    data_size: u32,
    head: &mut Head,
    stack: &mut [u8; 1024],
    width: StoreWidth,
    addr: u32,
    value: u32,
) -> Option<Stop>
    requires counts { head.old.used + 1 < 2 ^ 32 }
    requires aligned { addr % store_width width ≡ 0 }
    ensures next { let from = core_of_parts head.old stack.old in
        next_given (core_of_parts head.new stack.new) result
        ≡ store_next image.now.version data_size from width addr value }
    ensures stopped { OnSome result (core_of_parts head.new stack.new ≡ core_of_parts head.old stack.old) }
{
    let bytes = width_of_store(width);
    let len = u32::from(bytes);
    if is_in_stack(image.version(), addr, len) {
        write_in(stack, (addr - STACK_START) as usize, bytes, value);
        let pc = head.pc.wrapping_add(4);
        pass_to(head, pc);
        None
    } else if is_in(DATA_START, data_size, addr, len) {
        Some(Stop::Store { width, addr, value })
    } else {
        trap(head, 7)
    }
}

/// Executes what an instruction does if that is plain, or returns what it is.
fn obey(
    image: &Image,
    data_size: u32,
    head: &mut Head,
    stack: &mut [u8; 1024],
    effect: Effect,
) -> Option<Stop>
    requires counts { head.old.used + 1 < 2 ^ 32 }
    ensures next { let from = core_of_parts head.old stack.old in
        next_given (core_of_parts head.new stack.new) result ≡ effect_next image.now data_size from effect }
    ensures stopped { OnSome result (core_of_parts head.new stack.new ≡ core_of_parts head.old stack.old) }
{
    match effect {
        Effect::Plain { pc, rd, value } => {
            go(head, pc, rd, value);
            None
        }
        Effect::Load { width, rd, addr } => {
            if addr % u32::from(width_of_load(width)) == 0 {
                load(image, data_size, head, stack, width, rd, addr)
            } else {
                trap(head, 4)
            }
        }
        Effect::Store { width, addr, value } => {
            if addr % u32::from(width_of_store(width)) == 0 {
                store(image, data_size, head, stack, width, addr, value)
            } else {
                trap(head, 6)
            }
        }
        Effect::Call => Some(Stop::Call),
        Effect::Break => trap(head, 8),
        Effect::Misaligned => trap(head, 3),
    }
}

/// Executes the instruction at a core if it is plain, or returns what is there and leaves the core as it is. Inlined
/// with `decode_at` and `effect`, so that no instruction or effect is built in memory.
#[tactic(auto, unfolding(crate::specs::Legs::next_at))]
pub(crate) fn execute<const CALLER: usize>(
    image: &Image,
    data_size: u32,
    head: &mut Head,
    stack: &mut [u8; 1024],
    budget: u32,
) -> Option<Stop>
    ensures next { let from = core_of_parts head.old stack.old in
        next_given (core_of_parts head.new stack.new) result ≡ next_at image.now data_size budget from }
    ensures stopped { OnSome result (core_of_parts head.new stack.new ≡ core_of_parts head.old stack.old) }
{
    if head.used >= budget {
        return trap(head, 17);
    }
    let Some(word) = image.fetch(head.pc) else {
        return trap(head, 1);
    };
    let Some(instr) = decode_at::<CALLER>(word) else {
        return trap(head, 2);
    };
    let effect = effect(head.pc, &head.regs, &instr);
    obey(image, data_size, head, stack, effect)
}

/// Runs plain instructions from a core on, whose stack is kept beside it.
#[tactic(auto, using(crate::proofs::Runs::plain_facts))]
fn run_head(
    image: &Image,
    data_size: u32,
    head: &mut Head,
    stack: &mut [u8; 1024],
    quantum: u32,
    budget: u32,
) -> (u32, Stop)
    requires quantum { (1 ≤ quantum) × (quantum ≤ 1024) }
    requires used { head.old.used ≤ budget }
    ensures leg { let from = core_of_parts head.old stack.old in
        IsLeg image.now data_size budget quantum from (core_of_parts head.new stack.new) result.0 result.1 }
    ensures inside { StopIsInData data_size result.1 }
    ensures used { (head.new.used ≡ head.old.used + result.0) × (head.new.used ≤ budget) }
{
    for steps in 0..quantum {
        if let Some(stop) = execute::<0>(image, data_size, head, stack, budget) {
            return (steps, stop);
        }
    }
    (quantum, Stop::Quantum)
}

/// Runs plain instructions from a core on, in place, at most `quantum` of them, and returns how many it ran and what it
/// stopped at.
pub(crate) fn run_in_place(
    image: &Image,
    data_size: u32,
    core: &mut Core,
    quantum: u32,
    budget: u32,
) -> (u32, Stop)
    requires quantum { (1 ≤ quantum) × (quantum ≤ 1024) }
    requires used { core.old.used ≤ budget }
    ensures leg { IsLeg image.now data_size budget quantum core.old core.new result.0 result.1 }
    ensures inside { StopIsInData data_size result.1 }
    ensures used { (core.new.used ≡ core.old.used + result.0) × (core.new.used ≤ budget) }
{
    let mut head = Head {
        pc: core.pc,
        regs: core.regs,
        used: core.used,
    };
    let done = run_head(
        image,
        data_size,
        &mut head,
        &mut core.stack,
        quantum,
        budget,
    );
    core.pc = head.pc;
    core.regs = head.regs;
    core.used = head.used;
    done
}

/// Runs plain instructions on the image's text with data of another size than the image's. All else is as in
/// `run_plain`.
pub fn run_plain_within(
    image: &Image,
    data_size: u32,
    from: &Core,
    quantum: u32,
    budget: u32,
) -> Plain
    requires quantum { (1 ≤ quantum) × (quantum ≤ 1024) }
    requires used { from.now.used ≤ budget }
    ensures leg { IsLeg image.now data_size budget quantum from.now result.to result.steps result.stop }
    ensures inside { StopIsInData data_size result.stop }
    ensures used { (result.to.used ≡ from.now.used + result.steps) × (result.to.used ≤ budget) }
{
    let mut to = *from;
    let (steps, stop) = run_in_place(image, data_size, &mut to, quantum, budget);
    Plain { to, steps, stop }
}

/// Runs plain instructions from a core on, at most `quantum` of them, 1 to 1,024. A plain instruction touches
/// nothing but the registers, the stack and, by a load, the text. The run stops at the first of: its quantum is done;
/// a trap, of which 17 (the task has used `budget` instructions), 1 and 2 come first; a load from the data; a store to
/// the data; an ECALL. What it stops at isn't executed.
pub fn run_plain(image: &Image, from: &Core, quantum: u32, budget: u32) -> Plain
    requires quantum { (1 ≤ quantum) × (quantum ≤ 1024) }
    requires used { from.now.used ≤ budget }
    ensures leg { IsLeg image.now image.now.data_size budget quantum from.now result.to result.steps result.stop }
    ensures inside { StopIsInData image.now.data_size result.stop }
    ensures used { (result.to.used ≡ from.now.used + result.steps) × (result.to.used ≤ budget) }
{
    run_plain_within(image, image.data_size(), from, quantum, budget)
}

/// The core after a load that read these bytes, the first the lowest in `raw`. It goes on to the next instruction.
pub fn after_load(core: &Core, width: LoadWidth, rd: Reg, raw: u32) -> Core
    requires { core.now.used < 2 ^ 32 - 1 }
    ensures { result ≡ after_load_of core.now width rd raw }
{
    let mut after = *core;
    after.regs.set(rd, loaded(width, raw));
    after.pc = core.pc.wrapping_add(4);
    after.used += 1;
    after
}

/// The core after an instruction that writes no register. It goes on to the next instruction.
pub fn after_other(core: &Core) -> Core
    requires { core.now.used < 2 ^ 32 - 1 }
    ensures { result ≡ after_other_of core.now }
{
    Core {
        pc: core.pc.wrapping_add(4),
        used: core.used + 1,
        ..*core
    }
}

//! The text decoded once, and runs of plain instructions over it.

ghost use Rattle.std.specs.Prelude.{◌≡◌, ◌+◌, ◌%◌, ◌^◌, ◌<◌, ◌≤◌, ℕ, length, slice_get, None, OnSome, IfSome};
ghost use Rattle.rv_core.specs.Next.{Stops};
ghost use Rattle.rv_core.specs.Legs.{IsLeg, StopIsInData, PlainInstructions, next_at, next_given};
ghost use Rattle.rv_core.specs.Ops.{IsOpOf, OpsLead, found_stop, point, shape, op_next, point_led};

use crate::legs::execute;
use crate::naming::Naming;
use crate::op::{Op, Way, act, act_on_stack, address_of, op_of, stop_of};
use crate::state::{Core, Head, Stop};
use guest_image::{Image, TEXT_START};
use rv_table::Regs;
use std::alloc::{AllocError, Global};
use std::marker::{Model, PhantomData};

/// The text of the image that `N` names, decoded: 8 bytes a word.
#[derive(Drop)]
pub struct Decoded<N: Naming> {
    ops: Vec<Op>,
    naming: PhantomData<N>,
}

impl<N: Naming> Model for Decoded<N> {
    ghost use Rattle.std.specs.Prelude.{List};
    ghost use Rattle.rv_core.specs.declared.op.Op.{Op};
    ghost use Rattle.rv_core.specs.Ops.{AreDecoded};

    ghost Value = { List Op };

    ghost view = { λ d. d.ops.items };

    ghost invariant = { λ d. AreDecoded N.image d.ops.items };
}

impl<N: Naming> Decoded<N> {
    /// Decodes the text. It takes all its memory here.
    pub fn new(alloc: Global, image: &Image) -> Result<Decoded<N>, AllocError>
        requires { image.now ≡ N.image }
    {
        let _limits = image.initial();
        let text = image.text();
        let mut ops = Vec::with_capacity(alloc, text.len())?;
        for index in 0..text.len() {
            ops.push(op_at(text, index))?;
        }
        Ok(Decoded {
            ops,
            naming: PhantomData,
        })
    }

    /// No word of the text, for where memory is wanted: each instruction is then decoded where it stands.
    pub fn none(alloc: Global, image: &Image) -> Decoded<N>
        requires { image.now ≡ N.image }
    {
        let _limits = image.initial();
        Decoded {
            ops: Vec::new(alloc),
            naming: PhantomData,
        }
    }

    /// Does the operations from a core on that need registers and stack alone, at most `limit` of them, and returns how
    /// many it did.
    fn run_ops(&self, version: u16, core: &mut Core, limit: u32) -> u32
        requires version { version ≡ N.image.version }
        requires used { core.old.used + limit < 2 ^ 32 }
        ensures bound { result ≤ limit }
        ensures used { core.new.used ≡ core.old.used + result }
        ensures steps { (size budget : ℕ) → core.old.used + limit ≤ budget
            → PlainInstructions N.image size budget result core.old core.new }
    {
        if core.pc % 4 != 0 {
            return 0;
        }
        let start = core.pc.wrapping_sub(TEXT_START) / 4;
        let (index, steps) = do_ops(
            &self.ops,
            version,
            &mut core.regs,
            &mut core.stack,
            start,
            limit,
        );
        core.pc = address_of(index);
        core.used += steps;
        steps
    }

    /// What a run stops at here, where a decoded word determines it: a call, or an access to the data that doesn't
    /// trap.
    fn stop_at(&self, data_size: u32, core: &Core) -> Option<Stop>
        ensures { IfSome result (λ found. (budget : ℕ) → core.now.used < budget
            → next_at N.image data_size budget core.now ≡ Stops found) }
    {
        if core.pc % 4 != 0 {
            return None;
        }
        let index = core.pc.wrapping_sub(TEXT_START) / 4;
        stop_among(&self.ops, index, data_size, &core.regs)
    }
}

/// What the operation at an index stops at.
fn stop_among(ops: &[Op], index: u32, data_size: u32, regs: &Regs) -> Option<Stop>
    ensures { result ≡ found_stop data_size (slice_get ops.now index) regs.now }
{
    let Some(op) = ops.get(index as usize) else {
        return None;
    };
    stop_of(op, data_size, regs)
}

/// The operation of the word at an index.
fn op_at(text: &[u32], index: usize) -> Op
    requires inside { index < length text.now }
    requires short { length text.now ≤ 65536 }
    ensures { IsOpOf text.now index result }
{
    op_of(text[index], address_of(index as u32))
}

/// The most that a run of this quantum may do.
fn limit_of(quantum: u32, budget: u32, used: u32) -> u32
    requires { used ≤ budget }
    ensures quantum { result ≤ quantum }
    ensures budget { used + result ≤ budget }
    ensures whole { result < quantum → used + result ≡ budget }
{
    if budget - used < quantum {
        budget - used
    } else {
        quantum
    }
}

/// The lesser of two numbers.
fn lesser(one: usize, other: usize) -> usize
    ensures one { result ≤ one }
    ensures other { result ≤ other }
{
    if one < other { one } else { other }
}

/// Does operations that touch registers and stack alone, from a word of the text on, at most `limit` of them: the
/// word that stands next, and how many they were.
///
/// An operation that goes on to the next word costs one test, of that word against `end`. `bound` is the word that
/// would stand next after `limit` operations if all to come went on; where one goes elsewhere, both move.
fn do_ops(
    ops: &[Op],
    version: u16,
    regs: &mut Regs,
    stack: &mut [u8; 1024],
    start: u32,
    limit: u32,
) -> (u32, u32)
    requires { length ops.now ≤ 65536 }
    ensures bound { result.1 ≤ limit }
    ensures steps { let from = point start regs.old stack.old in
        OpsLead version ops.now result.1 from (point result.0 regs.new stack.new) }
{
    let mut index = start as usize;
    let mut bound = index + limit as usize;
    let mut end = lesser(bound, ops.len());
    while index < end {
        match act_whole(&ops[index], version, index as u32, regs, stack) {
            Way::On => index += 1,
            Way::To(next) => {
                bound = next as usize + (bound - index - 1);
                end = lesser(bound, ops.len());
                index = next as usize;
            }
            Way::Nowhere => break,
        }
    }
    (index as u32, limit - (bound - index) as u32)
}

/// Does an operation that touches registers and stack alone: where it leads, or nowhere and no change.
fn act_whole(op: &Op, version: u16, index: u32, regs: &mut Regs, stack: &mut [u8; 1024]) -> Way
    ensures next { let from = point index regs.old stack.old in
        point_led result index regs.new stack.new ≡ op_next version (shape op.now) from }
    ensures stays { result ≡ Way.Nowhere → (regs.new ≡ regs.old) × (stack.new ≡ stack.old) }
{
    match act(op, index, regs) {
        Way::On => Way::On,
        Way::To(next) => Way::To(next),
        Way::Nowhere => act_on_stack(op, version, regs, stack),
    }
}

/// Executes the instruction at a core if it is plain, or returns what is there.
fn execute_here<N: Naming>(
    decoded: &Decoded<N>,
    image: &Image,
    data_size: u32,
    core: &mut Core,
    budget: u32,
) -> Option<Stop>
    requires image { image.now ≡ N.image }
    requires used { core.old.used < budget }
    ensures next { next_given core.new result ≡ next_at image.now data_size budget core.old }
    ensures stopped { OnSome result (core.new ≡ core.old) }
{
    if let Some(stop) = decoded.stop_at(data_size, core) {
        return Some(stop);
    }
    let mut head = Head {
        pc: core.pc,
        regs: core.regs,
        used: core.used,
    };
    let found = execute::<2>(image, data_size, &mut head, &mut core.stack, budget);
    core.pc = head.pc;
    core.regs = head.regs;
    core.used = head.used;
    found
}

/// Runs plain instructions, at least one and at most `most`, or up to what stops the run: how many they were, and what
/// stopped it, if anything did.
#[tactic(auto, using(crate::proofs::Runs::plain_facts))]
fn run_some<N: Naming>(
    decoded: &Decoded<N>,
    image: &Image,
    data_size: u32,
    core: &mut Core,
    most: u32,
    budget: u32,
) -> (u32, Option<Stop>)
    requires image { image.now ≡ N.image }
    requires some { 1 ≤ most }
    requires used { core.old.used + most ≤ budget }
    ensures run { PlainInstructions image.now data_size budget result.0 core.old core.new }
    ensures bound { result.0 ≤ most }
    ensures used { core.new.used ≡ core.old.used + result.0 }
    ensures some { result.1 ≡ None → 1 ≤ result.0 }
    ensures stopped { IfSome result.1 (λ found.
        (result.0 < most) × (next_at image.now data_size budget core.new ≡ Stops found)) }
{
    let steps = decoded.run_ops(image.version(), core, most);
    if steps == most {
        return (steps, None);
    }
    match execute_here(decoded, image, data_size, core, budget) {
        Some(stop) => (steps, Some(stop)),
        None => (steps + 1, None),
    }
}

/// Runs plain instructions on the decoded text, on a core in place, as `run_plain_within` does: how many they were,
/// and what the run stopped at.
#[tactic(auto, using(crate::proofs::Runs::plain_facts, crate::proofs::Ops::ops_facts))]
pub fn run_decoded<N: Naming>(
    decoded: &Decoded<N>,
    image: &Image,
    data_size: u32,
    core: &mut Core,
    quantum: u32,
    budget: u32,
) -> (u32, Stop)
    requires image { image.now ≡ N.image }
    requires quantum { (1 ≤ quantum) × (quantum ≤ 1024) }
    requires used { core.old.used ≤ budget }
    ensures leg { IsLeg image.now data_size budget quantum core.old core.new result.0 result.1 }
    ensures inside { StopIsInData data_size result.1 }
    ensures used { (core.new.used ≡ core.old.used + result.0) × (core.new.used ≤ budget) }
{
    let limit = limit_of(quantum, budget, core.used);
    let mut steps = 0;
    while steps < limit {
        let (more, stop) = run_some(decoded, image, data_size, core, limit - steps, budget);
        steps += more;
        if let Some(stop) = stop {
            return (steps, stop);
        }
    }
    if limit == quantum {
        (limit, Stop::Quantum)
    } else {
        let pc = core.pc;
        (limit, Stop::Trap { cause: 17, pc })
    }
}

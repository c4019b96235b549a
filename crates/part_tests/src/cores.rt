//! Small programs, what their runs stop at, and accesses of the stack.

ghost use Rattle.std.specs.Prelude.{◌≡◌, ◌≤◌, IfOk, IfSome};

use crate::image_bytes::{EMITTING, TASK, image_with};
use crate::sending::is_sent;
use guest_image::Image;
use rv_core::{
    Core, Naming, Plain, Stop, after_load, after_other, run_leg, run_plain, run_plain_within,
};
use rv_table::{LoadWidth, Reg};
use std::alloc::Global;
use std::marker::Brand;
use std::process::Abort;
use std::test::Fail;

/// What a run stops at: an access with its address, a trap with its cause.
#[derive(Clone, Copy)]
enum Halt {
    Load(u32),
    Store(u32),
    Call,
    Trap(u8),
    Quantum,
}

/// A program with the size of its data, the limits of its run, the number of plain instructions that it has, and what
/// it stops at.
struct Program {
    what: &'static str,
    text: [u32; 5],
    data_size: u32,
    quantum: u32,
    budget: u32,
    steps: u32,
    halt: Halt,
}

static PROGRAMS: [Program; 16] = [
    Program {
        what: "emits a byte and ends",
        text: EMITTING,
        data_size: 0,
        quantum: 1024,
        budget: 65_536,
        steps: 2,
        halt: Halt::Call,
    },
    Program {
        what: "emits a byte and ends, by legs of two",
        text: EMITTING,
        data_size: 0,
        quantum: 2,
        budget: 65_536,
        steps: 2,
        halt: Halt::Quantum,
    },
    Program {
        what: "emits a byte and ends, within two instructions",
        text: EMITTING,
        data_size: 0,
        quantum: 1024,
        budget: 2,
        steps: 2,
        halt: Halt::Trap(17),
    },
    Program {
        what: "lui x5,0x10000; lw x6,4(x5), of 8 bytes",
        text: [0x1000_02b7, 0x0042_a303, 0, 0, 0],
        data_size: 8,
        quantum: 1024,
        budget: 65_536,
        steps: 1,
        halt: Halt::Load(0x1000_0004),
    },
    Program {
        what: "lui x5,0x10000; lw x6,4(x5), of 7 bytes",
        text: [0x1000_02b7, 0x0042_a303, 0, 0, 0],
        data_size: 7,
        quantum: 1024,
        budget: 65_536,
        steps: 1,
        halt: Halt::Trap(5),
    },
    Program {
        what: "lui x5,0x10000; lw x6,6(x5)",
        text: [0x1000_02b7, 0x0062_a303, 0, 0, 0],
        data_size: 8,
        quantum: 1024,
        budget: 65_536,
        steps: 1,
        halt: Halt::Trap(4),
    },
    Program {
        what: "lui x5,0x10000; sh x5,6(x5), of 8 bytes",
        text: [0x1000_02b7, 0x0052_9323, 0, 0, 0],
        data_size: 8,
        quantum: 1024,
        budget: 65_536,
        steps: 1,
        halt: Halt::Store(0x1000_0006),
    },
    Program {
        what: "lui x5,0x10000; sh x5,6(x5), of 7 bytes",
        text: [0x1000_02b7, 0x0052_9323, 0, 0, 0],
        data_size: 7,
        quantum: 1024,
        budget: 65_536,
        steps: 1,
        halt: Halt::Trap(7),
    },
    Program {
        what: "lui x5,0x10000; sh x5,7(x5)",
        text: [0x1000_02b7, 0x0052_93a3, 0, 0, 0],
        data_size: 7,
        quantum: 1024,
        budget: 65_536,
        steps: 1,
        halt: Halt::Trap(6),
    },
    Program {
        what: "auipc x5,0; lw x6,0(x5); an illegal word",
        text: [0x0000_0297, 0x0002_a303, 0, 0, 0],
        data_size: 0,
        quantum: 1024,
        budget: 65_536,
        steps: 2,
        halt: Halt::Trap(2),
    },
    Program {
        what: "auipc x5,0; sw x5,0(x5)",
        text: [0x0000_0297, 0x0052_a023, 0, 0, 0],
        data_size: 8,
        quantum: 1024,
        budget: 65_536,
        steps: 1,
        halt: Halt::Trap(7),
    },
    Program {
        what: "jal x0,.",
        text: [0x0000_006f, 0, 0, 0, 0],
        data_size: 0,
        quantum: 1024,
        budget: 65_536,
        steps: 1024,
        halt: Halt::Quantum,
    },
    Program {
        what: "jal x0,.+2",
        text: [0x0020_006f, 0, 0, 0, 0],
        data_size: 0,
        quantum: 1024,
        budget: 65_536,
        steps: 0,
        halt: Halt::Trap(3),
    },
    Program {
        what: "ebreak",
        text: [0x0010_0073, 0, 0, 0, 0],
        data_size: 0,
        quantum: 1024,
        budget: 65_536,
        steps: 0,
        halt: Halt::Trap(8),
    },
    Program {
        what: "addi x0,x0,0 five times, and the end of the text",
        text: [0x13, 0x13, 0x13, 0x13, 0x13],
        data_size: 0,
        quantum: 1024,
        budget: 65_536,
        steps: 5,
        halt: Halt::Trap(1),
    },
    Program {
        what: "an illegal word, within no instruction",
        text: [0, 0, 0, 0, 0],
        data_size: 0,
        quantum: 1,
        budget: 0,
        steps: 0,
        halt: Halt::Trap(17),
    },
];

/// The image of a program, in version 1.
fn image_of(alloc: Global, program: &Program) -> Result<Image, Fail> {
    image_with(alloc, &program.text, program.data_size, &TASK)
}

fn stops_at(stop: &Stop, halt: &Halt) -> bool {
    match *stop {
        Stop::Load { addr, .. } => matches!(halt, Halt::Load(at) if *at == addr),
        Stop::Store { addr, .. } => matches!(halt, Halt::Store(at) if *at == addr),
        Stop::Call => matches!(halt, Halt::Call),
        Stop::Trap { cause, .. } => matches!(halt, Halt::Trap(why) if *why == cause),
        Stop::Quantum => matches!(halt, Halt::Quantum),
    }
}

/// A leg at a naming, as a core, a number of instructions and a stop.
fn leg_of<N: Naming + Send>(image: &Image, from: &Core, quantum: u32, budget: u32) -> Plain
    requires image { image.now ≡ N.image }
    requires budget { budget ≡ N.budget }
    requires quantum { (1 ≤ quantum) × (quantum ≤ 1024) }
    requires used { from.now.used ≤ budget }
{
    let leg = run_leg::<N>(image, from, quantum, budget);
    is_sent(&leg);
    is_sent(leg.to());
    Plain {
        to: *leg.to(),
        steps: leg.steps(),
        stop: leg.stop(),
    }
}

fn start_of(image: &Image) -> Core
    ensures { result.used ≡ 0 }
{
    Core::start(image.version(), 0x0001_0000, 7, [1, 2, 3])
}

/// The run of a program stops where it must.
fn assert_stop(rt: &impl Abort, image: &Image, program: &Program)
    requires { (1 ≤ program.now.quantum) × (program.now.quantum ≤ 1024) }
{
    let plain = run_plain(image, &start_of(image), program.quantum, program.budget);
    assert_eq!(rt; plain.steps, program.steps, "{}", program.what);
    assert!(rt; stops_at(&plain.stop, &program.halt), "{}", program.what);
}

#[test]
fn programs_stop_where_they_must(rt: HostRuntime) -> Result<(), Fail> {
    for program in &PROGRAMS {
        assert!(rt; 1 <= program.quantum && program.quantum <= 1024);
        let image = image_of(rt.alloc(), program)?;
        assert_stop(&rt, &image, program);
        assert_stop(&rt, &image.upgrade(), program);
    }
    Ok(())
}

/// The run of a program within data of a given size, and its leg, are its run.
fn assert_alike<N: Naming + Send>(rt: &impl Abort, image: &Image, program: &Program)
    requires image { image.now ≡ N.image }
    requires budget { program.now.budget ≡ N.budget }
    requires quantum { (1 ≤ program.now.quantum) × (program.now.quantum ≤ 1024) }
{
    let start = start_of(image);
    let (quantum, budget) = (program.quantum, program.budget);
    let plain = run_plain(image, &start, quantum, budget);
    let within = run_plain_within(image, program.data_size, &start, quantum, budget);
    assert!(rt; within == plain, "{}", program.what);
    let leg = leg_of::<N>(image, &start, quantum, budget);
    assert!(rt; leg == plain, "{}", program.what);
}

#[test]
fn legs_are_runs_of_plain_instructions(rt: HostRuntime) -> Result<(), Fail> {
    for program in &PROGRAMS {
        assert!(rt; 1 <= program.quantum && program.quantum <= 1024);
        let image = image_of(rt.alloc(), program)?;
        assert_alike::<Brand>(&rt, &image, program);
    }
    Ok(())
}

fn register(core: &Core, number: u8) -> Option<u32> {
    Some(core.regs.get(Reg::new(number)?))
}

/// A version, and a register with its value at the start.
static AT_START: [(u16, u8, u32); 14] = [
    (1, 1, 0),
    (1, 2, 0),
    (1, 10, 1),
    (1, 11, 2),
    (1, 12, 3),
    (1, 13, 7),
    (1, 31, 0),
    (2, 1, 0),
    (2, 2, 0x2000_0400),
    (2, 10, 1),
    (2, 11, 2),
    (2, 12, 3),
    (2, 13, 7),
    (2, 31, 0),
];

#[test]
fn a_task_starts_with_its_arguments_and_a_stack_of_zeros(rt: HostRuntime) -> Result<(), Fail> {
    for (version, number, value) in &AT_START {
        let core = Core::start(*version, 0x0001_0000, 7, [1, 2, 3]);
        let found = register(&core, *number).ok_or("a register")?;
        assert_eq!(rt; found, *value, "x{number}");
        assert!(rt; core.used == 0 && core.stack.iter().all(|byte| *byte == 0));
    }
    Ok(())
}

/// The core at the first call of a task.
fn at_call(alloc: Global) -> Result<Core, Fail>
    ensures { IfOk result (λ core. core.used ≤ 65536) }
{
    let image = image_with(alloc, &EMITTING, 0, &TASK)?;
    Ok(run_plain(&image, &start_of(&image), 1024, 65_536).to)
}

#[test]
fn a_task_goes_on_after_a_call(rt: HostRuntime) -> Result<(), Fail> {
    let first = at_call(rt.alloc())?;
    assert!(rt; first.pc == 0x0001_0008 && register(&first, 10) == Some(65));
    let second = after_other(&first);
    assert!(rt; second.pc == 0x0001_000c && second.used == 3);
    Ok(())
}

#[test]
fn a_task_goes_on_after_a_load(rt: HostRuntime) -> Result<(), Fail> {
    let first = at_call(rt.alloc())?;
    let rd = Reg::new(10).ok_or("x10")?;
    let second = after_load(&first, LoadWidth::B, rd, 0x1234_5680);
    assert!(rt; second.pc == 0x0001_000c && second.used == 3);
    assert_eq!(rt; second.regs.get(rd), 0xffff_ff80);
    Ok(())
}

/// A text that has each load and store once, of x6 at the address in x5.
static ACCESSES: [u32; 8] = [
    0x0002_8303,
    0x0002_9303,
    0x0002_a303,
    0x0002_c303,
    0x0002_d303,
    0x0062_8023,
    0x0062_9023,
    0x0062_a023,
];

/// The image of that text, in version 1.
fn with_accesses(alloc: Global) -> Result<Image, Fail> {
    image_with(alloc, &ACCESSES, 0, &TASK)
}

/// Where each of them stands.
const LB: u32 = 0x0001_0000;

const LH: u32 = 0x0001_0004;

const LW: u32 = 0x0001_0008;

const LBU: u32 = 0x0001_000c;

const LHU: u32 = 0x0001_0010;

const SB: u32 = 0x0001_0014;

const SH: u32 = 0x0001_0018;

const SW: u32 = 0x0001_001c;

/// The first and the last bytes of the stack before an access.
const FIRST: [u8; 4] = [0x80, 0x91, 0xa2, 0xf3];

const LAST: [u8; 4] = [0x11, 0x22, 0x33, 0x84];

/// A core at an instruction, with these values of x5 and x6.
fn accessing(version: u16, pc: u32, addr: u32) -> Option<Core>
    ensures { IfSome result (λ core. core.used ≡ 0) }
{
    let mut core = Core::start(version, pc, 0, [0; 3]);
    core.regs.set(Reg::new(5)?, addr);
    core.regs.set(Reg::new(6)?, 0x8765_4321);
    Some(core)
}

/// A core at an instruction of version 2 whose stack has something at its two ends.
fn accessing_filled(pc: u32, addr: u32) -> Option<Core>
    ensures { IfSome result (λ core. core.used ≡ 0) }
{
    let mut core = accessing(2, pc, addr)?;
    core.stack[..4].copy_from_slice(&FIRST);
    core.stack[1020..].copy_from_slice(&LAST);
    Some(core)
}

/// A load, its address, and what it reads of the stack.
static READ: [(u32, u32, u32); 13] = [
    (LB, 0x2000_0000, 0xffff_ff80),
    (LH, 0x2000_0000, 0xffff_9180),
    (LW, 0x2000_0000, 0xf3a2_9180),
    (LBU, 0x2000_0000, 0x80),
    (LHU, 0x2000_0000, 0x9180),
    (LB, 0x2000_03fc, 0x11),
    (LH, 0x2000_03fc, 0x2211),
    (LB, 0x2000_03ff, 0xffff_ff84),
    (LBU, 0x2000_03ff, 0x84),
    (LH, 0x2000_03fe, 0xffff_8433),
    (LHU, 0x2000_03fe, 0x8433),
    (LW, 0x2000_03fc, 0x8433_2211),
    (LW, 0x2000_0200, 0),
];

#[test]
fn loads_read_the_stack(rt: HostRuntime) -> Result<(), Fail> {
    let image = with_accesses(rt.alloc())?.upgrade();
    for (pc, addr, value) in &READ {
        let core = accessing_filled(*pc, *addr).ok_or("a core")?;
        let plain = run_plain(&image, &core, 1, 65_536);
        assert!(rt;
            plain.steps == 1 && plain.to.stack == core.stack,
            "{pc} {addr}"
        );
        assert!(rt; register(&plain.to, 6) == Some(*value), "{pc} {addr}");
    }
    Ok(())
}

/// A store, its address, and the first and the last bytes of the stack after it.
static WRITTEN: [(u32, u32, [u8; 4], [u8; 4]); 8] = [
    (SB, 0x2000_0000, [0x21, 0x91, 0xa2, 0xf3], LAST),
    (SB, 0x2000_0003, [0x80, 0x91, 0xa2, 0x21], LAST),
    (SH, 0x2000_0002, [0x80, 0x91, 0x21, 0x43], LAST),
    (SW, 0x2000_0000, [0x21, 0x43, 0x65, 0x87], LAST),
    (SB, 0x2000_03ff, FIRST, [0x11, 0x22, 0x33, 0x21]),
    (SH, 0x2000_03fc, FIRST, [0x21, 0x43, 0x33, 0x84]),
    (SH, 0x2000_03fe, FIRST, [0x11, 0x22, 0x21, 0x43]),
    (SW, 0x2000_03fc, FIRST, [0x21, 0x43, 0x65, 0x87]),
];

#[test]
fn stores_write_the_stack(rt: HostRuntime) -> Result<(), Fail> {
    let image = with_accesses(rt.alloc())?.upgrade();
    for (pc, addr, first, last) in &WRITTEN {
        let core = accessing_filled(*pc, *addr).ok_or("a core")?;
        let plain = run_plain(&image, &core, 1, 65_536);
        assert!(rt;
            plain.steps == 1 && plain.to.regs == core.regs,
            "{pc} {addr}"
        );
        assert!(rt; plain.to.stack.starts_with(first), "{pc} {addr}");
        assert!(rt; plain.to.stack.ends_with(last), "{pc} {addr}");
    }
    Ok(())
}

/// An access in version 2 that is not of the stack, its address, and the trap.
static OUTSIDE: [(u32, u32, u8); 32] = [
    (LB, 0x1fff_ffff, 5),
    (LBU, 0x1fff_ffff, 5),
    (SB, 0x1fff_ffff, 7),
    (LH, 0x1fff_fffe, 5),
    (LHU, 0x1fff_fffe, 5),
    (SH, 0x1fff_fffe, 7),
    (LW, 0x1fff_fffc, 5),
    (SW, 0x1fff_fffc, 7),
    (LB, 0x2000_0400, 5),
    (LBU, 0x2000_0400, 5),
    (SB, 0x2000_0400, 7),
    (LH, 0x2000_0400, 5),
    (LHU, 0x2000_0400, 5),
    (SH, 0x2000_0400, 7),
    (LW, 0x2000_0400, 5),
    (SW, 0x2000_0400, 7),
    (LH, 0x2000_03ff, 4),
    (LHU, 0x2000_03ff, 4),
    (SH, 0x2000_03ff, 6),
    (LW, 0x2000_03fe, 4),
    (SW, 0x2000_03fe, 6),
    (LW, 0x2000_0001, 4),
    (SW, 0x2000_0001, 6),
    (LH, 0x1fff_ffff, 4),
    (SH, 0x1fff_ffff, 6),
    (LW, 0x1fff_fffe, 4),
    (SW, 0x1fff_fffe, 6),
    (LHU, 0x2000_0401, 4),
    (SH, 0x2000_0401, 6),
    (LW, 0x2000_0402, 4),
    (SW, 0x2000_0402, 6),
    (SW, 0xffff_fffc, 7),
];

/// An access in version 1, which has no stack.
static IN_VERSION_1: [(u32, u32, u8); 15] = [
    (LB, 0x2000_0000, 5),
    (LH, 0x2000_0000, 5),
    (LW, 0x2000_0000, 5),
    (LBU, 0x2000_0000, 5),
    (LHU, 0x2000_0000, 5),
    (SB, 0x2000_0000, 7),
    (SH, 0x2000_0000, 7),
    (SW, 0x2000_0000, 7),
    (LB, 0x2000_03ff, 5),
    (SB, 0x2000_03ff, 7),
    (LH, 0x2000_03ff, 4),
    (SH, 0x2000_03ff, 6),
    (LW, 0x2000_0400, 5),
    (SW, 0x2000_0400, 7),
    (SB, 0x1fff_ffff, 7),
];

/// An access traps and changes nothing.
fn assert_trap(rt: &impl Abort, image: &Image, core: &Core, why: u8)
    requires { core.now.used ≡ 0 }
{
    let plain = run_plain(image, core, 1, 65_536);
    assert!(rt;
        stops_at(&plain.stop, &Halt::Trap(why)),
        "{} {why}",
        core.pc
    );
    assert!(rt; plain.steps == 0 && plain.to == *core, "{} {why}", core.pc);
}

#[test]
fn accesses_beside_the_stack_trap(rt: HostRuntime) -> Result<(), Fail> {
    let image = with_accesses(rt.alloc())?.upgrade();
    for (pc, addr, why) in &OUTSIDE {
        let core = accessing(2, *pc, *addr).ok_or("a core")?;
        assert_trap(&rt, &image, &core, *why);
    }
    Ok(())
}

#[test]
fn no_access_reaches_a_stack_in_version_1(rt: HostRuntime) -> Result<(), Fail> {
    let image = with_accesses(rt.alloc())?;
    for (pc, addr, why) in &IN_VERSION_1 {
        let core = accessing(1, *pc, *addr).ok_or("a core")?;
        assert_trap(&rt, &image, &core, *why);
    }
    Ok(())
}

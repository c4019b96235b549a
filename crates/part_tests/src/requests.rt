//! What a task asks for at a stop, under the rules of calls.

use guest_image::{DATA_START, Kind};
use rv_core::{Core, Stop};
use rv_table::{LoadWidth, Reg, StoreWidth};
use std::test::Fail;
use task_desc::{Ctx, Place, Spawn};
use task_request::{Request, request_of};

/// A task of an ordered domain at depth 2, at timestamp 5, that has made nothing.
const CTX: Ctx = Ctx {
    version: 1,
    depth: 2,
    own: Kind::Ordered,
    outer: Some(Kind::Unordered),
    ts: 5,
    floor: 3,
    sub: None,
    children: 0,
    bytes: 0,
};

/// The task of `CTX` in an image of version 2.
const IN_VERSION_2: Ctx = Ctx { version: 2, ..CTX };

/// A core at a call with these values of x17, x10 and x11.
fn calling(number: u32, first: u32, second: u32) -> Option<Core> {
    let mut core = Core::start(1, 0x0001_0000, 5, [first, 7, 8]);
    core.regs.set(Reg::new(17)?, number);
    core.regs.set(Reg::new(11)?, second);
    Some(core)
}

/// The child for the superdomain.
const OUTER: Spawn = Spawn {
    place: Place::Super,
    entry: 0x0001_0040,
    ts: 0,
    args: [8, 5, 0],
    hint: 0,
};

/// The child for the own domain.
const INNER: Spawn = Spawn {
    place: Place::Same,
    ts: 9,
    ..OUTER
};

/// What a call asks for.
#[derive(Clone, Copy)]
enum Asked {
    Child(Spawn),
    Trap(u8),
    Subdomain(Kind),
    Byte(u8),
    End,
}

fn asks_for(request: &Request, asked: &Asked) -> bool {
    match *request {
        Request::Enqueue(spawn) => matches!(asked, Asked::Child(child) if *child == spawn),
        Request::Trap { cause } => matches!(asked, Asked::Trap(why) if *why == cause),
        Request::MakeSub(kind) => matches!(asked, Asked::Subdomain(own) if *own == kind),
        Request::Emit(byte) => matches!(asked, Asked::Byte(emitted) if *emitted == byte),
        Request::End => matches!(asked, Asked::End),
        _ => false,
    }
}

/// A task that calls with these values of x17, x10 and x11, and what it asks for.
static CALLS: [(Ctx, [u32; 3], Asked); 17] = [
    (CTX, [3, 0x0001_0040, 9], Asked::Child(OUTER)),
    (CTX, [1, 0x0001_0040, 4], Asked::Trap(10)),
    (CTX, [4, 2, 0], Asked::Trap(9)),
    (CTX, [4, 1, 0], Asked::Subdomain(Kind::Ordered)),
    (CTX, [5, 0x141, 0], Asked::Byte(0x41)),
    (CTX, [0, 0, 0], Asked::End),
    (CTX, [6, 0, 0], Asked::Trap(9)),
    (
        Ctx {
            children: 63,
            ..CTX
        },
        [1, 0x0001_0040, 9],
        Asked::Child(INNER),
    ),
    (
        Ctx {
            children: 64,
            ..CTX
        },
        [1, 0x0001_0040, 9],
        Asked::Trap(15),
    ),
    (
        Ctx {
            children: 64,
            ..IN_VERSION_2
        },
        [1, 0x0001_0040, 9],
        Asked::Child(INNER),
    ),
    (
        Ctx {
            children: 255,
            ..IN_VERSION_2
        },
        [1, 0x0001_0040, 9],
        Asked::Child(INNER),
    ),
    (
        Ctx {
            children: 256,
            ..IN_VERSION_2
        },
        [1, 0x0001_0040, 9],
        Asked::Trap(15),
    ),
    (Ctx { depth: 8, ..CTX }, [4, 1, 0], Asked::Trap(14)),
    (
        Ctx {
            depth: 8,
            ..IN_VERSION_2
        },
        [4, 1, 0],
        Asked::Subdomain(Kind::Ordered),
    ),
    (
        Ctx {
            depth: 15,
            ..IN_VERSION_2
        },
        [4, 1, 0],
        Asked::Subdomain(Kind::Ordered),
    ),
    (
        Ctx {
            depth: 16,
            ..IN_VERSION_2
        },
        [4, 1, 0],
        Asked::Trap(14),
    ),
    (
        Ctx {
            bytes: 256,
            ..IN_VERSION_2
        },
        [5, 0x141, 0],
        Asked::Trap(16),
    ),
];

#[test]
fn calls_ask_for_what_their_number_says(rt: HostRuntime) -> Result<(), Fail> {
    for (ctx, [number, first, second], asked) in &CALLS {
        let core = calling(*number, *first, *second).ok_or("a core")?;
        let found = request_of(ctx, &core, &Stop::Call);
        assert!(rt; asks_for(&found, asked), "{number} {first}");
    }
    Ok(())
}

/// A core at an instruction that isn't a call.
fn core_at_no_call() -> Core {
    Core::start(1, 0x0001_0000, 5, [0; 3])
}

#[test]
fn a_load_has_its_offset_in_the_data(rt: HostRuntime) -> Result<(), Fail> {
    let rd = Reg::new(6).ok_or("x6")?;
    let width = LoadWidth::H;
    let addr = DATA_START + 6;
    let found = request_of(&CTX, &core_at_no_call(), &Stop::Load { width, rd, addr });
    let offset = 6;
    assert!(rt; found == Request::Load { width, rd, offset });
    Ok(())
}

#[test]
fn a_store_has_its_offset_in_the_data(rt: HostRuntime) {
    let stop = Stop::Store {
        width: StoreWidth::H,
        addr: DATA_START + 6,
        value: 0x1_2345,
    };
    let store = Request::Store {
        offset: 6,
        width: 2,
        value: 0x1_2345,
    };
    assert!(rt; request_of(&CTX, &core_at_no_call(), &stop) == store);
}

#[test]
fn a_trap_and_a_full_leg_are_told_as_they_are(rt: HostRuntime) {
    let core = core_at_no_call();
    let pc = core.pc;
    let trap = request_of(&CTX, &core, &Stop::Trap { cause: 17, pc });
    assert!(rt; asks_for(&trap, &Asked::Trap(17)));
    let full = request_of(&CTX, &core, &Stop::Quantum);
    assert!(rt; matches!(full, Request::Continue));
}

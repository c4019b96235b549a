//! The front of a line: what is done and asked for, as the machine stands before its event.

ghost use Rattle.std.specs.Prelude.{◌≡◌, ◌+◌, ◌++◌, ◌<◌, OnOk, Some, codes, decimal};
ghost use Rattle.std.specs.String.{string_bytes};
ghost use Rattle.rv_core.specs.LegValue.{LegValue};
ghost use Rattle.script_text.specs.step_script.Asking.{asks_of};
ghost use Rattle.watch_text.specs.Fields.{number_field, some_field, word_field};
ghost use Rattle.watch_text.specs.Moments.{task_of};
ghost use Rattle.watch_text.specs.Requests.{access_text, act_spot, do_spot, enqueue_fields, front_text, in_tile};
ghost use Rattle.watch_text.specs.Requests.{leg_text, load_fields, nowhere, asks_with_number, spot_on_core, asks_field};
ghost use Rattle.watch_text.specs.Requests.{request_text, spawn_text, spot_text, store_fields};

use crate::about::About;
use crate::conflict_book::Legless;
use crate::fields::{
    put_core, put_digits, put_field, put_number, put_start, put_text, put_word_field,
};
use crate::step_script::{Act, Asked};
use crate::words::{do_word, kind_word, place_word};
use guest_image::DATA_START;
use rv_core::{Leg, Naming, width_of_load};
use std::alloc::AllocError;
use task_desc::Spawn;
use task_request::Request;

/// A tile and one of its cores, where they are named.
#[derive(Clone, Copy)]
struct Spot {
    tile: Option<u64>,
    core: Option<u64>,
}

fn in_tile(tile: u32) -> Spot
    ensures { result ≡ in_tile tile }
{
    Spot {
        tile: Some(u64::from(tile)),
        core: None,
    }
}

fn spot_on_core(tile: u32, core: u32) -> Spot
    ensures { result ≡ spot_on_core tile core }
{
    Spot {
        tile: Some(u64::from(tile)),
        core: Some(u64::from(core)),
    }
}

fn nowhere() -> Spot
    ensures { result ≡ nowhere }
{
    Spot {
        tile: None,
        core: None,
    }
}

/// Where an act is done.
fn act_spot(act: Act) -> Spot
    ensures { result ≡ act_spot act }
{
    match act {
        Act::Dispatch(tile) => in_tile(tile),
        Act::Step(tile, core) => spot_on_core(tile, core),
        Act::Take(tile, core) => spot_on_core(tile, core),
        Act::Give(tile, core) => spot_on_core(tile, core),
        Act::Abort(tile) => in_tile(tile),
        Act::Commit => nowhere(),
        Act::Coalesce(tile) => in_tile(tile),
        Act::Split(tile) => in_tile(tile),
        Act::Advance => nowhere(),
    }
}

/// Where the event that is handed in is done, or the act where none is.
fn do_spot<N: Naming>(act: Act, asked: &Asked) -> Spot
    ensures { (leg : LegValue) → result ≡ do_spot act (asks_of {N = N} asked.now leg) }
{
    match *asked {
        Asked::Legless(Legless::Dispatch { tile }) => in_tile(tile),
        Asked::Legless(Legless::Abort { tile }) => in_tile(tile),
        Asked::Legless(Legless::Commit) => nowhere(),
        Asked::Legless(Legless::Coalesce { tile }) => in_tile(tile),
        Asked::Legless(Legless::Split { tile }) => in_tile(tile),
        Asked::Ready { tile, core } => spot_on_core(tile, core),
        Asked::Says(_) => act_spot(act),
    }
}

/// The tile, where there is one.
#[inline(always)]
fn put_tile(line: &mut String, tile: Option<u64>) -> Result<(), AllocError>
    ensures { OnOk result (string_bytes line.new ≡ string_bytes line.old ++ some_field (codes "tile") tile) }
{
    match tile {
        None => Ok(()),
        Some(tile) => put_field(line, ",\"tile\":", tile),
    }
}

/// The task, where there is one.
#[inline(always)]
fn put_task(line: &mut String, task: Option<u64>) -> Result<(), AllocError>
    ensures { OnOk result (string_bytes line.new ≡ string_bytes line.old ++ some_field (codes "task") task) }
{
    match task {
        None => Ok(()),
        Some(task) => put_field(line, ",\"task\":", task),
    }
}

fn put_spot(line: &mut String, spot: Spot) -> Result<(), AllocError>
    ensures { OnOk result (string_bytes line.new ≡ string_bytes line.old ++ spot_text spot) }
{
    put_tile(line, spot.tile)?;
    put_core(line, spot.core)
}

/// An access of the data.
#[tactic(auto, unfolding(crate::specs::Requests::access_text))]
fn put_access(line: &mut String, offset: u32, width: u8) -> Result<(), AllocError>
    ensures { OnOk result (string_bytes line.new ≡ string_bytes line.old ++ access_text offset width) }
{
    put_field(
        line,
        ",\"addr\":",
        u64::from(DATA_START) + u64::from(offset),
    )?;
    put_field(line, ",\"bytes\":", u64::from(width))
}

/// A child.
#[tactic(auto, unfolding(crate::specs::Requests::spawn_text))]
fn put_spawn(line: &mut String, spawn: &Spawn) -> Result<(), AllocError>
    ensures { OnOk result (string_bytes line.new ≡ string_bytes line.old ++ spawn_text spawn.now) }
{
    put_word_field(line, ",\"to\":\"", place_word(spawn.place))?;
    put_start(line, spawn.entry, spawn.ts, &spawn.args, spawn.hint)
}

/// A request by its word alone.
#[tactic(auto, unfolding(crate::specs::Requests::asks_field))]
fn put_asks(line: &mut String, word: &str) -> Result<(), AllocError>
    ensures { OnOk result (string_bytes line.new ≡ string_bytes line.old ++ asks_field word.now) }
{
    put_word_field(line, ",\"asks\":\"", word)
}

/// A request by its word and a number.
fn put_asks_with_number(
    line: &mut String,
    word: &str,
    name: &str,
    number: u64,
) -> Result<(), AllocError>
    ensures { OnOk result (string_bytes line.new ≡ string_bytes line.old
        ++ asks_with_number word.now name.now number) }
{
    put_asks(line, word)?;
    put_number(line, name, number)
}

#[tactic(auto, unfolding(crate::specs::Requests::load_fields))]
fn put_load(line: &mut String, offset: u32, width: u8) -> Result<(), AllocError>
    ensures { OnOk result (string_bytes line.new ≡ string_bytes line.old ++ load_fields offset width) }
{
    put_asks(line, "load")?;
    put_access(line, offset, width)
}

#[tactic(auto, unfolding(crate::specs::Requests::store_fields))]
fn put_store(line: &mut String, offset: u32, width: u8, value: u32) -> Result<(), AllocError>
    ensures { OnOk result (string_bytes line.new ≡ string_bytes line.old ++ store_fields offset width value) }
{
    put_asks(line, "store")?;
    put_access(line, offset, width)?;
    put_field(line, ",\"value\":", u64::from(value))
}

#[tactic(auto, unfolding(crate::specs::Requests::enqueue_fields))]
fn put_enqueue(line: &mut String, spawn: &Spawn) -> Result<(), AllocError>
    ensures { OnOk result (string_bytes line.new ≡ string_bytes line.old ++ enqueue_fields spawn.now) }
{
    put_asks(line, "enqueue")?;
    put_spawn(line, spawn)
}

/// What a task asks for.
#[tactic(auto, unfolding(crate::specs::Requests::request_text))]
fn put_request(line: &mut String, request: &Request) -> Result<(), AllocError>
    ensures { OnOk result (string_bytes line.new ≡ string_bytes line.old ++ request_text request.now) }
{
    match *request {
        Request::Continue => put_asks(line, "go"),
        Request::Load { width, offset, .. } => put_load(line, offset, width_of_load(width)),
        Request::Store {
            offset,
            width,
            value,
        } => put_store(line, offset, width, value),
        Request::Enqueue(spawn) => put_enqueue(line, &spawn),
        Request::MakeSub(kind) => put_asks(line, kind_word(kind)),
        Request::Emit(byte) => put_asks_with_number(line, "emit", "byte", u64::from(byte)),
        Request::End => put_asks(line, "end"),
        Request::Trap { cause } => put_asks_with_number(line, "trap", "cause", u64::from(cause)),
    }
}

/// A leg that its task takes, and what the task asks for at its end.
fn put_leg<N: Naming>(line: &mut String, leg: &Leg<N>, request: &Request) -> Result<(), AllocError>
    ensures { OnOk result (string_bytes line.new ≡ string_bytes line.old
        ++ (number_field (codes "leg") leg.now.steps ++ number_field (codes "pc") leg.now.to.pc
        ++ request_text request.now)) }
{
    put_field(line, ",\"leg\":", u64::from(leg.steps()))?;
    put_field(line, ",\"pc\":", u64::from(leg.to().pc))?;
    put_request(line, request)
}

/// Puts a leg that its task takes, and what the task asks for at its end, where a leg is handed in; else nothing.
fn put_asked<N: Naming>(
    line: &mut String,
    asked: &Asked,
    leg: &Leg<N>,
    request: Option<Request>,
) -> Result<(), AllocError>
    ensures { OnOk result (string_bytes line.new ≡ string_bytes line.old
        ++ leg_text {N = N} (asks_of asked.now leg.now) request) }
{
    match *asked {
        Asked::Legless(Legless::Dispatch { .. }) => Ok(()),
        Asked::Legless(Legless::Abort { .. }) => Ok(()),
        Asked::Legless(Legless::Commit) => Ok(()),
        Asked::Legless(Legless::Coalesce { .. }) => Ok(()),
        Asked::Legless(Legless::Split { .. }) => Ok(()),
        Asked::Ready { .. } => match request {
            None => Ok(()),
            Some(request) => put_leg(line, leg, &request),
        },
        Asked::Says(_) => Ok(()),
    }
}

/// The number of an act, and the word of what is done.
fn put_do(line: &mut String, at: u64, word: &str) -> Result<(), AllocError>
    ensures { OnOk result (string_bytes line.new ≡ string_bytes line.old
        ++ (codes "{\"at\":" ++ decimal at ++ word_field (codes "do") word.now)) }
{
    put_text(line, "{\"at\":")?;
    put_digits(line, at)?;
    put_word_field(line, ",\"do\":\"", word)
}

fn task_number(about: &About) -> Option<u64>
    ensures { result ≡ task_of about.now }
{
    match about.task {
        None => None,
        Some(id) => Some(id.0 as u64),
    }
}

/// The front of a line: the act's number, what is done and where, the task, and its leg.
#[tactic(auto, unfolding(crate::specs::Requests::front_text))]
pub fn put_front<N: Naming>(
    line: &mut String,
    at: u64,
    act: Act,
    asked: &Asked,
    about: &About,
    leg: &Leg<N>,
) -> Result<(), AllocError>
    ensures { OnOk result (string_bytes line.new ≡ string_bytes line.old
        ++ front_text {N = N} at act (asks_of asked.now leg.now) (task_of about.now) about.now.request) }
{
    put_do(line, at, do_word::<N>(act, asked))?;
    put_spot(line, do_spot::<N>(act, asked))?;
    put_task(line, task_number(about))?;
    put_asked(line, asked, leg, about.request)
}

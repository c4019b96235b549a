//! Closes a set of nodes again and again, so that what that costs can be measured from outside.
//!
//! The words are the number of nodes, the shape of the relation (`rising`, `falling` or `star`) and how often to
//! close the set of one node, as in `1024 falling 100`. It prints the size of the closed set, or 0 where that is closed
//! no time. `bench/run` calls it. It stands on `abort_cascade`. A round costs one `close`; two slices of that many
//! items are taken once.
#![tactic(auto)]

mod relation;

ghost use Rattle.std.specs.Prelude.{◌≡◌, length};

use abort_cascade::close;
use relation::{Relation, RelationKind};
use std::alloc::Global;
use std::env;
use std::process::ExitCode;

fn main(rt: HostRuntime) -> ExitCode {
    let Some(size) = run(&rt, rt.alloc()) else {
        return ExitCode::FAILURE;
    };
    match println!(rt; "{size}") {
        Ok(()) => ExitCode::SUCCESS,
        Err(_) => ExitCode::FAILURE,
    }
}

/// Does what the words ask for. None where they ask for nothing, or memory runs out.
fn run(rt: &HostRuntime, alloc: Global) -> Option<usize> {
    let mut args = env::args(rt).ok()?;
    let _program = args.next();
    let nodes: u32 = args.next()?.as_str().parse().ok()?;
    let kind = kind_of(args.next()?.as_str())?;
    let rounds: u32 = args.next()?.as_str().parse().ok()?;
    if nodes == 0 {
        return None;
    }
    let shape = Relation::new(nodes as usize, kind);
    let mut marks = vec![in alloc; false; nodes as usize].ok()?;
    let mut members = vec![in alloc; 0; nodes as usize].ok()?;
    Some(size_of(&shape, rounds, &mut marks, &mut members))
}

/// The kind of a relation by its name.
fn kind_of(word: &str) -> Option<RelationKind> {
    match word {
        "rising" => Some(RelationKind::Rising),
        "falling" => Some(RelationKind::Falling),
        "star" => Some(RelationKind::Star),
        _ => None,
    }
}

/// Closes the set of the node that leads to all, `rounds` times, and returns its size; without a round it returns 0.
fn size_of(shape: &Relation, rounds: u32, marks: &mut [bool], members: &mut [usize]) -> usize
    requires marks { length marks.old ≡ shape.now.nodes }
    requires members { length members.old ≡ shape.now.nodes }
{
    let mut size = 0;
    for _round in 0..rounds {
        marks.fill(false);
        marks[shape.head()] = true;
        size = close(shape, marks, members);
    }
    size
}

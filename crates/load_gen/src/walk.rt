//! The image of a walk.

ghost use Rattle.std.specs.Prelude.{◌≡◌, ◌<◌, ◌≤◌, ◌^◌, ◌++◌, IfOk, OnOk, map, Some};
ghost use Rattle.std.specs.List.{AllByRecursion, flat_map};
ghost use Rattle.rv_table.specs.Table.{instr_of_word};
ghost use Rattle.guest_image.specs.Numbers.{word_bytes};
ghost use Rattle.load_gen.specs.Programs.{breadth_first_walk, walk_words as walk_words_lem};
ghost use Rattle.load_gen.specs.Walk.{next_random as next_random_lem, edge as edge_lem, edges as edges_lem};
ghost use Rattle.load_gen.specs.Walk.{adjacency as adjacency_lem, walk_image as walk_image_lem};

use crate::assembly::{add, addi, branch, ecall, lui, lw, slli, sw};
use crate::making::image_of;
use guest_image::{DATA_START, Image, ImageTask, Kind, TEXT_START};
use rv_table::Cond;
use std::alloc::{AllocError, Global};

/// A missing edge.
const NO_EDGE: u32 = 0xffff_ffff;

/// A breadth-first walk. At the start of a task x10 is its node, x11 the address of the distance table and x13 its
/// timestamp.
#[tactic(auto, unfolding(crate::specs::Programs::breadth_first_walk))]
fn breadth_first_words() -> [u32; 24]
    ensures decodes { map instr_of_word result ≡ map Some breadth_first_walk }
    ensures small { AllByRecursion (λ word. word < 2 ^ 32) result }
{
    [
        // x5 is 4 times the node, x6 the address of its distance. The task ends if that was set before.
        slli(5, 10, 2),
        add(6, 11, 5),
        lw(7, 6),
        branch(Cond::Ne, 7, 0, 76),
        // The distance is the timestamp plus 1.
        addi(8, 13, 1),
        sw(8, 6),
        // x5 is the address of the node's first edge: 12 times the node from the start of the data.
        slli(7, 10, 3),
        add(5, 5, 7),
        lui(7, 0x1000_0000),
        add(5, 5, 7),
        // Three edges are left. A child starts at the first word, at the timestamp in x8, with the table as its
        // second argument.
        addi(9, 0, 3),
        addi(13, 11, 0),
        addi(11, 8, 0),
        addi(17, 0, 1),
        lui(10, 0x1_0000),
        // The target of an edge, which is negative where the edge is missing, is the child's node and its hint.
        lw(12, 5),
        branch(Cond::Lt, 12, 0, 12),
        addi(15, 12, 0),
        ecall(),
        // The next edge.
        addi(5, 5, 4),
        addi(9, 9, -1),
        branch(Cond::Ne, 9, 0, -24),
        // The end of the task.
        addi(17, 0, 0),
        ecall(),
    ]
}

/// The words of the breadth-first walk, with the contract that they are the definition's.
#[tactic(auto, using(crate::proofs::Words::walk_words_are))]
fn walk_words() -> [u32; 24]
    ensures { result ≡ walk_words_lem }
{
    breadth_first_words()
}

/// The number after a number of the recurrence.
fn next_random(number: u32) -> u32
    ensures { result ≡ next_random_lem number }
{
    ((1_664_525 * u64::from(number) + 1_013_904_223) % 0x1_0000_0000) as u32
}

/// The word of an edge.
fn edge(size: u32, target: u32) -> u32
    ensures { result ≡ edge_lem size target }
{
    if target < size { target } else { NO_EDGE }
}

/// The words of the edges of a node.
fn edges(size: u32, number: u32, node: u32) -> [u32; 3]
    requires { node < 100000 }
    ensures { result ≡ edges_lem size number node }
{
    [
        edge(size, 2 * node + 1),
        edge(size, 2 * node + 2),
        number % (node + 1),
    ]
}

fn put_words(bytes: &mut Vec<u8>, words: &[u32]) -> Result<(), AllocError>
    ensures { OnOk result (bytes.new.items ≡ bytes.old.items ++ flat_map word_bytes words.now) }
{
    for word in words {
        bytes.extend_from_slice(&word.to_le_bytes())?;
    }
    Ok(())
}

/// The bytes of the adjacency table.
fn adjacency(alloc: Global, seed: u32, size: u32) -> Result<Vec<u8>, AllocError>
    requires { size ≤ 100000 }
    ensures { IfOk result (λ v. v.items ≡ flat_map word_bytes (adjacency_lem seed size)) }
{
    let mut bytes = Vec::with_capacity(alloc, 12 * size as usize)?;
    let mut number = seed;
    for node in 0..size {
        put_words(&mut bytes, &edges(size, number, node))?;
        number = next_random(number);
    }
    Ok(bytes)
}

/// The image of a walk through a graph of `size` nodes.
#[tactic(auto, using(crate::proofs::Table::length_of_table))]
pub(crate) fn walk_image(alloc: Global, seed: u32, size: u32) -> Result<Image, AllocError>
    requires { (0 < size) × (size ≤ 100000) }
    ensures { IfOk result (λ image. image ≡ walk_image_lem seed size) }
{
    let text = Vec::from_array(alloc, walk_words())?;
    let initial = adjacency(alloc, seed, size)?;
    let mut tasks = Vec::with_capacity(alloc, 1)?;
    tasks.push(ImageTask {
        entry: TEXT_START,
        ts: 0,
        args: [0, DATA_START + 12 * size, 0],
    })?;
    let window_words = size.min(4);
    Ok(image_of(
        Kind::Ordered,
        text,
        initial,
        16 * size,
        16 * size - 4 * window_words,
        window_words,
        tasks,
    ))
}

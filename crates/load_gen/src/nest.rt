//! The image of nested additions.

ghost use Rattle.std.specs.Prelude.{◌≡◌, ◌<◌, ◌≤◌, ◌^◌, IfOk, map, Some, vec_len};
ghost use Rattle.std.specs.List.{AllByRecursion, range_with_len};
ghost use Rattle.rv_table.specs.Table.{instr_of_word};
ghost use Rattle.load_gen.specs.Programs.{nested_additions, nest_words as nest_words_lem};
ghost use Rattle.load_gen.specs.Nest.{cell as cell_lem, nest_task as nest_task_lem, nest_image as nest_image_lem};

use crate::assembly::{add, addi, ecall, lui, lw, sw};
use crate::making::image_of;
use guest_image::{DATA_START, Image, ImageTask, Kind, TEXT_START};
use std::alloc::{AllocError, Global};

/// Nested additions. At the start of an initial task x10 is its amount, and x11 and x12 are the addresses of its cells.
#[tactic(auto, unfolding(crate::specs::Programs::nested_additions))]
fn nested_words() -> [u32; 23]
    ensures decodes { map instr_of_word result ≡ map Some nested_additions }
    ensures small { AllByRecursion (λ word. word < 2 ^ 32) result }
{
    [
        // The amount and the two cells are kept in x5, x6 and x7 while an ordered subdomain is made.
        addi(17, 0, 4),
        addi(5, 10, 0),
        addi(6, 11, 0),
        addi(7, 12, 0),
        addi(10, 0, 1),
        ecall(),
        // A task in the subdomain at the word 18 adds the amount to the second cell, at timestamp 1.
        addi(17, 0, 2),
        lui(10, 0x1_0000),
        addi(10, 10, 72),
        addi(12, 5, 0),
        addi(13, 7, 0),
        addi(11, 0, 1),
        ecall(),
        // Another task in the subdomain adds it to the first cell, at timestamp 0.
        addi(13, 6, 0),
        addi(11, 0, 0),
        ecall(),
        // The end of the task.
        addi(17, 0, 0),
        ecall(),
        // A task of the subdomain: x10 is the amount, and x11 the address of the cell.
        lw(5, 11),
        add(5, 5, 10),
        sw(5, 11),
        addi(17, 0, 0),
        ecall(),
    ]
}

/// The words of the nested additions, with the contract that they are the definition's.
#[tactic(auto, using(crate::proofs::Words::nest_words_are))]
fn nest_words() -> [u32; 23]
    ensures { result ≡ nest_words_lem }
{
    nested_words()
}

/// The address of a cell.
fn cell(place: u32) -> u32
    ensures { result ≡ cell_lem place }
{
    DATA_START + 4 * (place % 8)
}

/// An initial task.
fn nest_task(seed: u32, place: u32) -> ImageTask
    requires { place < 10000 }
    ensures { result ≡ nest_task_lem seed place }
{
    ImageTask {
        entry: TEXT_START,
        ts: 0,
        args: [seed % 1000 + place, cell(place), cell(place + 3)],
    }
}

/// The initial tasks.
fn nest_tasks(alloc: Global, seed: u32, size: u32) -> Result<Vec<ImageTask>, AllocError>
    requires { size ≤ 10000 }
    ensures tasks { IfOk result (λ v. v.items ≡ map (nest_task_lem seed) (range_with_len 0 size)) }
    ensures len { IfOk result (λ v. vec_len v ≡ size) }
{
    (0..size).map(|place| nest_task(seed, place)).collect(alloc)
}

/// The image of `size` tasks.
pub(crate) fn nest_image(alloc: Global, seed: u32, size: u32) -> Result<Image, AllocError>
    requires { (0 < size) × (size ≤ 10000) }
    ensures { IfOk result (λ image. image ≡ nest_image_lem seed size) }
{
    let text = Vec::from_array(alloc, nest_words())?;
    let tasks = nest_tasks(alloc, seed, size)?;
    Ok(image_of(Kind::Unordered, text, Vec::new(alloc), 32, 0, 8, tasks))
}

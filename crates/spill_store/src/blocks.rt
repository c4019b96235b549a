//! The blocks of all tiles.

ghost use Rattle.std.specs.Prelude.{◌≡◌, ◌+◌, ◌<◌, ◌≤◌, ◌↔◌, ℕ, [], length, map, replicate, slice_get, slice_index_or};
ghost use Rattle.std.specs.Prelude.{All, IfOk, IfSome, IsNone, IsOk, OnErr, OnOk, Some};
ghost use Rattle.std.specs.Ordering.{is_lt};
ghost use Rattle.std.specs.List.Sorted.{IsStrictlyIncreasing};
ghost use Rattle.task_desc.specs.Record.{IsDesc};
ghost use Rattle.spill_store.specs.SpilledTasks.{by_key, BlockValue, renumbered_spilled, HoldsSpilled};
ghost use Rattle.fractal_vt.specs.Sorted.{IsInOrder};
ghost use Rattle.spill_store.specs.Fronts.{front_at, front_cmp, lists_in, IsFront, IsFrontBut, IsFirstOfAll};
ghost use Rattle.spill_store.specs.Fronts.{Pushes, TakesFirst};
ghost use Rattle.spill_store.specs.Fronts.{Reserves};

use crate::Block;
use fractal_vt::{Key, Vt, cmp};
use std::alloc::{AllocError, Global};
use std::marker::Model;
use task_desc::Desc;

/// The blocks of all tiles. Which tile has the first of their tasks is noted: a push compares once for it, and what
/// takes a task looks at each tile.
#[derive(Drop)]
pub struct Blocks {
    blocks: Vec<Block>,
    /// The tile of the first task: that of the least key, and on a tie the lowest.
    front: usize,
}

impl Model for Blocks {
    ghost use Rattle.spill_store.specs.Fronts.{BlocksValue, lists_in, IsFront};

    ghost Value = { BlocksValue };

    ghost view = { λ b. record { items = b.blocks.items } };

    ghost invariant = { λ b. IsFront (lists_in b.blocks.items) b.front };
}

impl Blocks {
    /// An empty block for each tile.
    pub fn new(alloc: Global, tiles: u32) -> Result<Blocks, AllocError>
        requires { 1 ≤ tiles }
        ensures count { IfOk result (λ all. length all.items ≡ tiles) }
        ensures lists { IfOk result (λ all. lists_in all.items ≡ replicate tiles []) }
    {
        let blocks = empty_blocks(alloc, tiles)?;
        let front = first_tile(blocks.as_slice());
        Ok(Blocks { blocks, front })
    }

    /// The block of a tile.
    pub fn block(&self, tile: u32) -> &Block
        requires { tile < length self.now.items }
        ensures { slice_get self.now.items tile ≡ Some result.now }
    {
        &self.blocks[tile as usize]
    }

    /// The blocks, by their tiles.
    pub fn as_slice(&self) -> &[Block]
        ensures { result.now ≡ self.now.items }
    {
        self.blocks.as_slice()
    }

    /// Sees to it that `more` pushes into the block of a tile are spare.
    pub fn reserve(&mut self, tile: u32, more: usize) -> Result<(), AllocError>
        requires tile { tile < length self.old.items }
        ensures one { Reserves tile self.old.items self.new.items }
        ensures spare { let all = self.new.items in
            OnOk result ((block : BlockValue) → block ≡ slice_index_or all tile block → more ≤ block.spare) }
        ensures enough { let all = self.old.items in
            (block : BlockValue) → block ≡ slice_index_or all tile block → more ≤ block.spare → IsOk result }
        ensures err { OnErr result (self.new ≡ self.old) }
    {
        self.blocks[tile as usize].reserve(more)
    }

    /// Adds a task with its domain to the block of a tile.
    pub fn push(&mut self, tile: u32, desc: &Desc, domain: &Vt)
        requires tile { tile < length self.old.items }
        requires spare { (block : BlockValue) → block ≡ slice_index_or self.old.items tile block → 1 ≤ block.spare }
        requires desc { IsDesc desc.now }
        requires domain { length domain.now + 1 ≡ desc.now.depth }
        ensures { Pushes tile (record { desc = desc.now; domain = domain.now }) self.old.items self.new.items }
    {
        self.blocks[tile as usize].push(desc, domain);
        self.front = front_of_two(self.blocks.as_slice(), self.front, tile as usize);
    }

    /// Takes out the first task of the block of a tile, with its domain; None exactly where that block is empty.
    pub fn take_least(&mut self, tile: u32) -> Option<(Desc, Vt)>
        requires tile { tile < length self.old.items }
        ensures some { let taken_to = self.new.items in
            IfSome result
            (λ taken. TakesFirst tile (record { desc = taken.0; domain = taken.1 }) self.old.items taken_to) }
        ensures fits { IfSome result (λ taken. IsDesc taken.0 × (length taken.1 + 1 ≡ taken.0.depth)) }
        ensures none { IsNone result ↔ (slice_index_or (lists_in self.old.items) tile [] ≡ []) }
    {
        let taken = self.blocks[tile as usize].take_least();
        self.front = first_tile(self.blocks.as_slice());
        taken
    }

    /// Replaces each tiebreaker of the domains by its place in a strictly rising table that holds them all.
    pub fn renumber(&mut self, table: &[u64])
        requires rising { IsStrictlyIncreasing table.now }
        requires held { All (HoldsSpilled table.now) (lists_in self.old.items) }
        ensures count { length self.new.items ≡ length self.old.items }
        ensures tasks { lists_in self.new.items ≡ map (map (renumbered_spilled table.now)) (lists_in self.old.items) }
        ensures spare { map (λ block. block.spare) self.new.items ≡ map (λ block. block.spare) self.old.items }
    {
        renumber_blocks(&mut self.blocks, table);
        self.front = first_tile(self.blocks.as_slice());
    }

    /// Takes all tasks out of all blocks.
    pub fn clear(&mut self)
        ensures count { length self.new.items ≡ length self.old.items }
        ensures lists { lists_in self.new.items ≡ replicate (length self.old.items) [] }
    {
        empty_all(self.blocks.as_mut_slice());
        self.front = first_tile(self.blocks.as_slice());
    }

    /// The first of all tasks: its tile, and its open key where it stands.
    pub fn front(&self) -> Option<(usize, &Key)>
        ensures some { IfSome result (λ f. IsFirstOfAll (lists_in self.now.items) f.0 f.1.now) }
        ensures none { let lists = lists_in self.now.items in
            IsNone result → (tile : ℕ) → tile < length self.now.items → slice_index_or lists tile [] ≡ [] }
    {
        all_in_order(self.blocks.as_slice());
        let key = self.blocks[self.front].front_key()?;
        Some((self.front, key))
    }
}

/// An empty block for each tile.
fn empty_blocks(alloc: Global, tiles: u32) -> Result<Vec<Block>, AllocError>
    ensures count { IfOk result (λ blocks. length blocks.items ≡ tiles) }
    ensures lists { IfOk result (λ blocks. lists_in blocks.items ≡ replicate tiles []) }
{
    let mut blocks = Vec::with_capacity(alloc, tiles as usize)?;
    for _tile in 0..tiles {
        blocks.push(Block::new(alloc))?;
    }
    Ok(blocks)
}

/// Takes all tasks out of a block.
fn empty_block(block: &mut Block)
    ensures { block.new.tasks ≡ [] }
{
    while block.take_least().is_some() {}
}

/// Takes all tasks out of each block.
fn empty_all(blocks: &mut [Block])
    ensures count { length blocks.new ≡ length blocks.old }
    ensures lists { lists_in blocks.new ≡ replicate (length blocks.old) [] }
{
    for block in blocks.iter_mut() {
        empty_block(block);
    }
}

/// Law: each block is in its order. (The loop does nothing, and LLVM drops it.)
fn all_in_order(blocks: &[Block])
    ensures { (tile : ℕ) → tile < length blocks.now → IsInOrder by_key (slice_index_or (lists_in blocks.now) tile []) }
{
    for tile in 0..blocks.len() {
        blocks[tile].is_in_order();
    }
}

/// Whether the first task of one tile comes before that of another.
fn comes_first(blocks: &[Block], tile: usize, other: usize) -> bool
    requires tile { tile < length blocks.now }
    requires other { other < length blocks.now }
    ensures { let lists = lists_in blocks.now in
        result ≡ is_lt (front_cmp (front_at lists tile) (front_at lists other)) }
{
    match (
        blocks[tile as usize].front_key(),
        blocks[other as usize].front_key(),
    ) {
        (Some(key), Some(next)) => {
            let order = cmp(key, next);
            order.is_lt() || (order.is_eq() && tile < other)
        }
        (Some(_), None) => true,
        (None, Some(_)) => false,
        (None, None) => tile < other,
    }
}

/// The tile of the first task, where one was pushed to a tile.
fn front_of_two(blocks: &[Block], front: usize, tile: usize) -> usize
    requires tile { tile < length blocks.now }
    requires front { IsFrontBut (lists_in blocks.now) front tile }
    ensures { IsFront (lists_in blocks.now) result }
{
    if comes_first(blocks, tile, front) {
        tile
    } else {
        front
    }
}

/// The tile of the first task.
fn first_tile(blocks: &[Block]) -> usize
    requires { 1 ≤ length blocks.now }
    ensures { IsFront (lists_in blocks.now) result }
{
    let mut best = 0;
    for tile in 1..blocks.len() {
        if comes_first(blocks, tile, best) {
            best = tile;
        }
    }
    best
}

/// Replaces the tiebreakers in all blocks.
fn renumber_blocks(blocks: &mut [Block], table: &[u64])
    requires rising { IsStrictlyIncreasing table.now }
    requires held { All (HoldsSpilled table.now) (lists_in blocks.old) }
    ensures count { length blocks.new ≡ length blocks.old }
    ensures tasks { lists_in blocks.new ≡ map (map (renumbered_spilled table.now)) (lists_in blocks.old) }
    ensures spare { map (λ block. block.spare) blocks.new ≡ map (λ block. block.spare) blocks.old }
{
    for tile in 0..blocks.len() {
        blocks[tile].renumber(table);
    }
}

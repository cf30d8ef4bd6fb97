//! The list of blocks.
ghost use Rattle.std.specs.Prelude.{◌≡◌, ◌<◌, ◌≤◌, ◌+◌, length, Some, slice_get, All, IfOk};
ghost use Rattle.blk_plain.specs.Plain.{sector_of, written, patched, used_of, AreSound, Fits, after, after_option, replayed, IsInRange, zero_blocks};

use crate::memory::Memory;
use crate::op::{Op, Patches, Pattern, SECTOR, Span};
use std::alloc::Global;
use std::marker::Model;

/// A list of blocks, which contracts see as the list of their sectors.
#[derive(Drop)]
pub struct Blocks {
    sectors: Vec<[u8; SECTOR]>,
}

impl Model for Blocks {
    ghost use Rattle.std.specs.Prelude.{List, ℕ};

    ghost Value = { List (List ℕ) };

    ghost view = { λ b. b.sectors.items };
}

impl Blocks {
    /// So many blocks of zeros. Memory is taken here alone.
    pub fn zeroed(alloc: Global, count: u64) -> Result<Blocks, Memory>
        ensures { IfOk result (λ b. b ≡ zero_blocks count) }
    {
        let mut sectors = Vec::with_capacity(alloc, count as usize)?;
        for _ in 0..count {
            sectors.push_reserved([0; SECTOR]);
        }
        Ok(Blocks { sectors })
    }

    /// The sector that a block holds.
    pub fn sector(&self, block: u64) -> &[u8]
        requires { block < length self.now }
        ensures held { slice_get self.now block ≡ Some result.now }
        ensures long { length result.now ≡ 512 }
    {
        &self.sectors[block as usize]
    }

    /// One step of the plain machine: a write changes its span or spans, and nothing else changes a block.
    pub fn apply(&mut self, op: &Op)
        requires { IsInRange (length self.old) op.now }
        ensures { self.new ≡ after op.now self.old }
    {
        match op {
            Op::Write { span, pattern } => write(&mut self.sectors, *span, pattern),
            Op::Writes { patches } => write_all(&mut self.sectors, patches),
            Op::Read { .. } | Op::Rebuild { .. } | Op::Sync { .. } => {}
        }
    }
}

fn write(sectors: &mut [[u8; SECTOR]], span: Span, pattern: &Pattern)
    requires { span.first + span.count ≤ length sectors.old }
    ensures { sectors.new ≡ written span (sector_of pattern.now) sectors.old }
{
    let first = span.first as usize;
    for i in 0..span.count as usize {
        fill(&mut sectors[first + i], pattern);
    }
}

// Writes each pattern over each sector of its span.
fn write_all(sectors: &mut [[u8; SECTOR]], patches: &Patches)
    requires sound { AreSound patches.now }
    requires fit { All (Fits (length sectors.old)) (used_of patches.now) }
    ensures { sectors.new ≡ patched (used_of patches.now) sectors.old }
{
    for i in 0..patches.used as usize {
        let patch = &patches.list[i];
        write(sectors, patch.span, &patch.pattern);
    }
}

/// Fills a sector with the pattern.
pub fn fill(to: &mut [u8; SECTOR], pattern: &Pattern)
    ensures { to.new ≡ sector_of pattern.now }
{
    let len = pattern.len as usize;
    for i in 0..SECTOR {
        to[i] = pattern.bytes[i % len];
    }
}

fn apply_at(ops: &[Op], at: usize, blocks: &mut Blocks)
    requires known { at < length ops.now }
    requires in_range { All (IsInRange (length blocks.old)) ops.now }
    ensures now { blocks.new ≡ after_option (slice_get ops.now at) blocks.old }
    ensures count { length blocks.new ≡ length blocks.old }
{
    blocks.apply(&ops[at]);
}

/// Applies the operations that stand at the positions of `order`, one after another, each as often as its position comes.
pub fn replay(ops: &[Op], order: &[u32], blocks: &mut Blocks)
    requires known { All (λ i. i < length ops.now) order.now }
    requires in_range { All (IsInRange (length blocks.old)) ops.now }
    ensures { blocks.new ≡ replayed ops.now order.now blocks.old }
{
    for i in order {
        apply_at(ops, *i as usize, blocks);
    }
}

//! Writes of several spans, worked by hand.
ghost use Rattle.std.specs.Prelude.{◌≡◌, ◌<◌, ◌≤◌, ◌↔◌, length, All, IfOk, IsTrue};
ghost use Rattle.blk_plain.specs.Plain.{used_of, AreSound, Fits, IsInRange};

use crate::judging::{same, same_at};
use blk_plain::*;
use std::alloc::Global;
use std::process::Abort;
use std::test::Fail;

// A span, and a byte that is repeated in it.
fn patch(first: u64, count: u32, byte: u8) -> Patch
    ensures { result.span.count ≡ count }
{
    let mut bytes = [0; 32];
    bytes[0] = byte;
    Patch {
        span: Span { first, count },
        pattern: Pattern { len: 1, bytes },
    }
}

// So many of these are in use, and each has a block.
fn in_use(rt: &impl Abort, used: u8, list: [Patch; 8]) -> Patches
    ensures few { result.used ≤ 8 }
    ensures used { 0 < used → 0 < result.used }
    ensures some { All (λ p. 1 ≤ p.span.count) (used_of result) }
{
    assert!(rt; used <= 8);
    assert!(rt; list.iter().all(|p| p.span.count >= 1));
    Patches { used, list }
}

fn fits(patch: &Patch, count: u64) -> bool
    ensures { IsTrue result ↔ Fits count patch.now }
{
    let Span {
        first,
        count: blocks,
    } = patch.span;
    first <= count && u64::from(blocks) <= count - first
}

// Their write, which may be applied to so many blocks.
fn write_of(rt: &impl Abort, patches: Patches, count: u64) -> Op
    requires few { patches.used ≤ 8 }
    requires used { 0 < patches.used }
    requires some { All (λ p. 1 ≤ p.span.count) (used_of patches) }
    ensures { IsInRange count result }
{
    assert!(rt; are_apart(&patches));
    assert!(rt; patches.list.iter().all(|p| fits(p, count)));
    Op::Writes { patches }
}

// Four blocks of zeros after it.
fn applied(alloc: Global, op: &Op) -> Result<Blocks, Memory>
    requires { IsInRange 4 op.now }
    ensures { IfOk result (λ blocks. length blocks ≡ 4) }
{
    let mut blocks = Blocks::zeroed(alloc, 4)?;
    blocks.apply(op);
    Ok(blocks)
}

// The same, by a history of it alone.
fn replayed(alloc: Global, op: Op) -> Result<Blocks, Memory>
    requires { IsInRange 4 op }
    ensures { IfOk result (λ blocks. length blocks ≡ 4) }
{
    let mut blocks = Blocks::zeroed(alloc, 4)?;
    replay(&[op], &[0], &mut blocks);
    Ok(blocks)
}

// Whether the whole sector repeats the byte.
fn repeats(sector: &[u8], byte: u8) -> bool {
    sector.len() == SECTOR && sector.iter().all(|b| *b == byte)
}

// Four blocks hold these bytes.
fn hold(rt: &impl Abort, blocks: &Blocks, bytes: [u8; 4])
    requires { 4 ≤ length blocks.now }
{
    for (block, byte) in bytes.iter().enumerate() {
        same_at(rt, block, repeats(blocks.sector(block as u64), *byte), true);
    }
}

#[test]
fn a_write_of_two_spans_changes_both_and_no_other_block(rt: HostRuntime) -> Result<(), Fail> {
    let mut list = [patch(0, 1, 0x11); 8];
    list[1] = patch(3, 1, 0x22);
    let op = write_of(&rt, in_use(&rt, 2, list), 4);
    hold(&rt, &applied(rt.alloc(), &op)?, [0x11, 0, 0, 0x22]);
    hold(&rt, &replayed(rt.alloc(), op)?, [0x11, 0, 0, 0x22]);
    Ok(())
}

#[test]
fn spans_may_stand_in_any_order(rt: HostRuntime) -> Result<(), Fail> {
    let mut list = [patch(3, 1, 0x22); 8];
    list[1] = patch(1, 2, 0x33);
    list[2] = patch(0, 1, 0x11);
    let op = write_of(&rt, in_use(&rt, 3, list), 4);
    hold(&rt, &applied(rt.alloc(), &op)?, [0x11, 0x33, 0x33, 0x22]);
    Ok(())
}

// Three spans share no block, or two of them do.
const APART: [([(u64, u32); 3], bool); 9] = [
    ([(0, 1), (3, 1), (5, 1)], true),
    ([(0, 2), (2, 1), (3, 4)], true),
    ([(3, 4), (0, 2), (2, 1)], true),
    ([(0, 2), (1, 1), (3, 4)], false),
    ([(5, 1), (9, 9), (5, 1)], false),
    ([(2, 8), (0, 1), (4, 1)], false),
    ([(4, 1), (0, 1), (2, 8)], false),
    ([(2, 8), (0, 2), (10, 1)], true),
    (
        [(0, u32::MAX), (u64::MAX, u32::MAX), (4_294_967_295, 1)],
        true,
    ),
];

#[test]
fn spans_are_apart_where_no_two_share_a_block(rt: HostRuntime) {
    for ([one, two, three], apart) in APART {
        let mut list = [patch(one.0, one.1, 0); 8];
        list[1] = patch(two.0, two.1, 0);
        list[2] = patch(three.0, three.1, 0);
        let patches = in_use(&rt, 3, list);
        same_at(&rt, (one, two, three), are_apart(&patches), apart);
    }
}

#[test]
fn only_patches_in_use_count(rt: HostRuntime) {
    let mut list = [patch(0, 1, 0); 8];
    same(&rt, are_apart(&in_use(&rt, 1, list)), true);
    same(&rt, are_apart(&in_use(&rt, 2, list)), false);
    for i in 0..8 {
        list[i] = patch(i as u64, 1, 0);
    }
    same(&rt, are_apart(&in_use(&rt, 8, list)), true);
    list[7] = patch(0, 1, 0);
    same(&rt, are_apart(&in_use(&rt, 7, list)), true);
    same(&rt, are_apart(&in_use(&rt, 8, list)), false);
}

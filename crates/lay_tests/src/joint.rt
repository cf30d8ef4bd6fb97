//! Several spans together, against lists worked by hand.
ghost use Rattle.std.specs.Prelude.{◌≡◌, ◌≤◌, All};
ghost use Rattle.blk_plain.specs.Plain.{AreSound, spans_of, used_of};

use crate::judging::{same, same_at};
use crate::levels::{has_parts, is_empty, make, part};
use blk_plain::{Patch, Patches, Pattern, Span, are_apart};
use lay_core::{
    Layout, Part, SplitFault, StripeMap, blocks, count_all, some_passes_end, split_all,
};
use lay_plain::Raid0;
use std::process::Abort;
use std::test::Fail;

fn patch(first: u64, count: u32) -> Patch {
    Patch {
        span: Span { first, count },
        pattern: Pattern {
            len: 1,
            bytes: [0; 32],
        },
    }
}

// So many of these are in use, and each has a block.
fn in_use(rt: &impl Abort, used: usize, list: [Patch; 8]) -> Patches
    ensures few { result.used ≤ 8 }
    ensures used { result.used ≡ used }
    ensures some { All (λ p. 1 ≤ p.span.count) (used_of result) }
{
    assert!(rt; used <= 8);
    assert!(rt; list.iter().all(|p| p.span.count >= 1));
    Patches {
        used: used as u8,
        list,
    }
}

// Where each patch has a block each span has one.
fn spans_have_blocks(patches: &Patches)
    requires { All (λ p. 1 ≤ p.span.count) (used_of patches.now) }
    ensures { All (λ s. 1 ≤ s.count) (spans_of patches.now) }
{}

// These spans, each of which has a block, and no two of which share one.
fn sound(rt: &impl Abort, spans: &[(u64, u32)]) -> Patches
    ensures sound { AreSound result }
    ensures some { All (λ s. 1 ≤ s.count) (spans_of result) }
{
    let mut list = [patch(0, 1); 8];
    for (to, (first, count)) in list.iter_mut().zip(spans) {
        *to = patch(*first, *count);
    }
    let patches = in_use(rt, spans.len(), list);
    assert!(rt; patches.used >= 1);
    assert!(rt; are_apart(&patches));
    spans_have_blocks(&patches);
    patches
}

fn splits<L: Layout>(
    rt: &impl Abort,
    layout: &L,
    map: &mut StripeMap,
    spans: &[(u64, u32)],
    stripes: &[u32],
    parts: &[Part],
) -> Result<(), Fail> {
    split_all(layout, &sound(rt, spans), map)?;
    has_parts(rt, map, stripes, parts);
    Ok(())
}

#[test]
fn a_new_map_is_empty(rt: HostRuntime) -> Result<(), Fail> {
    let map = StripeMap::with_room(rt.alloc())?;
    same(&rt, is_empty(&map), true);
    Ok(())
}

#[test]
fn spans_of_two_stripes_are_two_parts(rt: HostRuntime) -> Result<(), Fail> {
    let layout = make(&rt, 3, 1, 64);
    let mut map = StripeMap::with_room(rt.alloc())?;
    let parts = [part(0, 0, 0, 1), part(1, 1, 0, 1)];
    splits(&rt, &layout, &mut map, &[(0, 1), (3, 1)], &[0, 1], &parts)?;
    splits(&rt, &layout, &mut map, &[(3, 1), (0, 1)], &[0, 1], &parts)
}

#[test]
fn spans_that_meet_in_a_unit_have_one_part_there(rt: HostRuntime) -> Result<(), Fail> {
    let layout = make(&rt, 3, 4, 5);
    let mut map = StripeMap::with_room(rt.alloc())?;
    let one = [part(0, 0, 0, 3)];
    splits(&rt, &layout, &mut map, &[(2, 1), (0, 2)], &[0], &one)?;

    // Where they meet between two units they don't.
    let two = [part(0, 0, 2, 2), part(0, 1, 0, 1)];
    splits(&rt, &layout, &mut map, &[(4, 1), (2, 2)], &[0], &two)?;

    let spans = [(18, 1), (2, 1), (0, 2), (5, 2)];
    let parts = [part(0, 0, 0, 3), part(0, 1, 1, 2), part(1, 0, 2, 1)];
    splits(&rt, &layout, &mut map, &spans, &[0, 2], &parts)
}

#[test]
fn eight_spans_may_lie_in_one_unit(rt: HostRuntime) -> Result<(), Fail> {
    let layout = make(&rt, 3, 128, 2);
    let mut map = StripeMap::with_room(rt.alloc())?;
    let spans = [
        (270, 1),
        (258, 1),
        (260, 1),
        (256, 1),
        (262, 1),
        (264, 1),
        (266, 1),
        (268, 1),
    ];
    let parts = [
        part(0, 0, 0, 1),
        part(0, 0, 2, 1),
        part(0, 0, 4, 1),
        part(0, 0, 6, 1),
        part(0, 0, 8, 1),
        part(0, 0, 10, 1),
        part(0, 0, 12, 1),
        part(0, 0, 14, 1),
    ];
    splits(&rt, &layout, &mut map, &spans, &[1], &parts)
}

// Eight spans that take 16 stripes of 32 units but for a block within each of seven units.
const MOST: [(u64, u32); 8] = [
    (0, 257),
    (258, 255),
    (514, 255),
    (770, 255),
    (1_026, 255),
    (1_282, 255),
    (1_538, 255),
    (1_794, 254),
];

#[test]
fn eight_spans_may_have_519_parts(rt: HostRuntime) -> Result<(), Fail> {
    let layout = Raid0::new(32, 4, 16)?;
    let mut map = StripeMap::with_room(rt.alloc())?;
    split_all(&layout, &sound(&rt, &MOST), &mut map)?;
    same(&rt, map.stripes().len(), 16);
    same(&rt, map.parts().len(), 519);
    Ok(())
}

// The spans are split, or refused for this cause, and the map is empty exactly where they are refused.
fn is_refused<L: Layout>(
    rt: &impl Abort,
    layout: &L,
    map: &mut StripeMap,
    spans: &[(u64, u32)],
    want: Option<SplitFault>,
) {
    let fault = split_all(layout, &sound(rt, spans), map).err();
    same_at(rt, spans, fault, want);
    same_at(rt, spans, is_empty(map), want.is_some());
}

#[test]
fn spans_past_the_end_or_of_seventeen_stripes_are_refused(rt: HostRuntime) -> Result<(), Fail> {
    // Two blocks a stripe, 80 in all.
    let layout = make(&rt, 3, 1, 40);
    let mut map = StripeMap::with_room(rt.alloc())?;
    for (spans, want) in [
        ([(0, 30), (40, 1)], None),
        ([(40, 1), (0, 32)], Some(SplitFault::TooLong)),
        ([(0, 32), (32, 1)], Some(SplitFault::TooLong)),
        ([(0, 31), (31, 1)], None),
        ([(0, 1), (79, 1)], None),
        ([(0, 1), (79, 2)], Some(SplitFault::OutOfRange)),
        ([(80, 1), (0, 1)], Some(SplitFault::OutOfRange)),
        ([(0, 40), (79, 2)], Some(SplitFault::OutOfRange)),
        ([(0, 1), (u64::MAX, u32::MAX)], Some(SplitFault::OutOfRange)),
    ] {
        is_refused(&rt, &layout, &mut map, &spans, want);
    }
    Ok(())
}

// How many stripes the spans touch together, or none where one passes the end.
fn count_of<L: Layout>(rt: &impl Abort, layout: &L, spans: &[(u64, u32)]) -> Option<u32> {
    let patches = sound(rt, spans);
    if some_passes_end(blocks(layout), &patches) {
        return None;
    }
    Some(count_all(layout, &patches))
}

#[test]
fn stripes_are_counted_once_whatever_their_number(rt: HostRuntime) {
    // Two blocks a stripe, 80 in all.
    let layout = make(&rt, 3, 1, 40);
    for (spans, count) in [
        ([(0, 1), (1, 1)], Some(1)),
        ([(2, 1), (1, 1)], Some(2)),
        ([(1, 1), (78, 2)], Some(2)),
        ([(40, 1), (0, 32)], Some(17)),
        ([(39, 41), (0, 39)], Some(40)),
        ([(0, 1), (79, 2)], None),
    ] {
        same_at(&rt, spans, count_of(&rt, &layout, &spans), count);
    }
}

//! Level 5 against tables worked by hand from its definition.
ghost use Rattle.std.specs.Prelude.{◌≤◌};

mod tables;

use crate::judging::{same, same_at};
use blk_plain::Span;
use lay_core::{Home, Layout, Part, Place, SplitFault, StripeMap, blocks, home, split};
use lay_plain::{MakeFault, Raid5};
use std::process::Abort;
use std::test::Fail;

pub(crate) fn make(rt: &impl Abort, columns: u32, unit_sectors: u32, rows: u32) -> Raid5 {
    Raid5::new(columns, unit_sectors, rows).expect(rt, "a layout")
}

pub(crate) fn place_of<L: Layout>(layout: &L, stripe: u32, unit: u32) -> Option<Place> {
    if stripe < layout.stripes() && unit < layout.width() {
        Some(layout.place(stripe, unit))
    } else {
        None
    }
}

fn home_of<L: Layout>(layout: &L, block: u64) -> Option<Home> {
    if block < blocks(layout) {
        Some(home(layout, block))
    } else {
        None
    }
}

// The units of the stripe lie on these columns, in the row of its number.
fn lie_on<L: Layout>(rt: &impl Abort, layout: &L, stripe: u32, columns: &[u32]) {
    for (unit, column) in columns.iter().enumerate() {
        let unit = u32::try_from(unit).unwrap_or(u32::MAX);
        let want = Place {
            column: *column,
            row: stripe,
        };
        let found = place_of(layout, stripe, unit);
        same_at(rt, (unit, stripe), found, Some(want));
    }
}

#[test]
fn check_units_go_left_and_data_units_follow_them(rt: HostRuntime) {
    let three = make(&rt, 3, 1, 4);
    const ROWS: &[(u32, [u32; 3])] = &[
        (0, [0, 1, 2]),
        (1, [2, 0, 1]),
        (2, [1, 2, 0]),
        (3, [0, 1, 2]),
    ];
    for row in ROWS {
        let (stripe, columns) = *row;
        lie_on(&rt, &three, stripe, &columns);
    }
}

#[test]
fn so_do_those_of_five_columns(rt: HostRuntime) {
    let five = make(&rt, 5, 128, 5);
    const ROWS: &[(u32, [u32; 5])] = &[
        (0, [0, 1, 2, 3, 4]),
        (1, [4, 0, 1, 2, 3]),
        (2, [3, 4, 0, 1, 2]),
        (3, [2, 3, 4, 0, 1]),
        (4, [1, 2, 3, 4, 0]),
    ];
    for row in ROWS {
        let (stripe, columns) = *row;
        lie_on(&rt, &five, stripe, &columns);
    }
}

// Proved from the maker's contract alone: the layout is made, and stripe 4 has a unit 2.
#[test]
fn numbers_in_range_make_a_layout(rt: HostRuntime) {
    let Ok(layout) = Raid5::new(3, 4, 5) else {
        unreachable!()
    };
    same(&rt, layout.place(4, 2), Place { column: 1, row: 4 });
}

// A layout is made, or refused for this cause.
fn is_made(rt: &impl Abort, columns: u32, unit_sectors: u32, rows: u32, want: Option<MakeFault>) {
    let fault = Raid5::new(columns, unit_sectors, rows).err();
    same(
        rt,
        (columns, unit_sectors, rows, fault),
        (columns, unit_sectors, rows, want),
    );
}

#[test]
fn a_layout_is_made_of_numbers_in_range_alone(rt: HostRuntime) {
    const TABLE: &[(u32, u32, u32, Option<MakeFault>)] = &[
        (1, 0, 0, Some(MakeFault::Columns)),
        (33, 1, 1, Some(MakeFault::Columns)),
        (2, 0, 0, Some(MakeFault::Unit)),
        (32, 129, 0, Some(MakeFault::Unit)),
        (2, 1, 0, Some(MakeFault::Rows)),
        (32, 128, 1_048_577, Some(MakeFault::Rows)),
        (2, 1, 1, None),
        (32, 128, 1_048_576, None),
    ];
    for row in TABLE {
        let (columns, unit_sectors, rows, want) = *row;
        is_made(&rt, columns, unit_sectors, rows, want);
    }
}

// The columns, the width and the check units.
fn has_across<L: Layout>(rt: &impl Abort, layout: &L, numbers: (u32, u32, u32)) {
    let found = (layout.columns(), layout.width(), layout.checks());
    same(rt, found, numbers);
}

// The sectors of a unit, the stripes and the rows.
fn has_along<L: Layout>(rt: &impl Abort, layout: &L, numbers: (u32, u32, u32)) {
    let found = (layout.unit_sectors(), layout.stripes(), layout.rows());
    same(rt, found, numbers);
}

#[test]
fn a_layout_has_the_numbers_that_it_is_made_of(rt: HostRuntime) {
    let largest = make(&rt, 32, 128, 1_048_576);
    has_across(&rt, &largest, (32, 32, 1));
    has_along(&rt, &largest, (128, 1_048_576, 1_048_576));
    same(&rt, blocks(&largest), 4_160_749_568);
    same(&rt, make(&rt, 2, 1, 1).spare_place(0), None);
}

#[test]
fn blocks_go_through_a_unit_then_a_stripe(rt: HostRuntime) {
    let layout = make(&rt, 3, 4, 5);
    same(&rt, blocks(&layout), 40);
    const TABLE: &[(u64, u32, u32, u32)] = &[
        (0, 0, 0, 0),
        (3, 0, 0, 3),
        (4, 0, 1, 0),
        (8, 1, 0, 0),
        (13, 1, 1, 1),
        (39, 4, 1, 3),
    ];
    for row in TABLE {
        let (block, stripe, unit, offset) = *row;
        let want = Home {
            stripe,
            unit,
            offset,
        };
        same(&rt, (block, home_of(&layout, block)), (block, Some(want)));
    }
}

pub(crate) fn part(stripe: u32, unit: u32, from: u32, count: u32) -> Part {
    Part {
        stripe,
        unit,
        from,
        count,
    }
}

pub(crate) fn has_parts(rt: &impl Abort, map: &StripeMap, stripes: &[u32], parts: &[Part]) {
    same(rt, map.stripes(), stripes);
    same(rt, map.parts(), parts);
}

fn splits<L: Layout>(
    rt: &impl Abort,
    layout: &L,
    map: &mut StripeMap,
    span: Span,
    stripes: &[u32],
    parts: &[Part],
) -> Result<(), Fail>
    requires { 1 ≤ span.count }
{
    split(layout, span, map)?;
    has_parts(rt, map, stripes, parts);
    Ok(())
}

#[test]
fn a_span_has_one_part_in_each_unit_it_touches(rt: HostRuntime) -> Result<(), Fail> {
    let layout = make(&rt, 3, 4, 5);
    let mut map = StripeMap::with_room(rt.alloc())?;
    same(&rt, is_empty(&map), true);

    // Blocks 1 to 3 of unit 0, and 4 to 6 of unit 1.
    let span = Span { first: 1, count: 6 };
    let parts = [part(0, 0, 1, 3), part(0, 1, 0, 3)];
    splits(&rt, &layout, &mut map, span, &[0], &parts)?;

    // Blocks 22 and 23 of stripe 2, 24 to 31 of stripe 3, and 32 of stripe 4.
    let span = Span {
        first: 22,
        count: 11,
    };
    let parts = [
        part(0, 1, 2, 2),
        part(1, 0, 0, 4),
        part(1, 1, 0, 4),
        part(2, 0, 0, 1),
    ];
    splits(&rt, &layout, &mut map, span, &[2, 3, 4], &parts)?;

    // One block within a unit.
    let span = Span {
        first: 13,
        count: 1,
    };
    splits(&rt, &layout, &mut map, span, &[1], &[part(0, 1, 1, 1)])
}

// The cause for which the span isn't split.
fn fault_of<L: Layout>(layout: &L, map: &mut StripeMap, span: Span) -> Option<SplitFault>
    requires { 1 ≤ span.count }
{
    split(layout, span, map).err()
}

pub(crate) fn is_empty(map: &StripeMap) -> bool {
    map.stripes().is_empty() && map.parts().is_empty()
}

// The span is split, or refused for this cause, and the map is empty exactly where it's refused.
fn is_refused<L: Layout>(
    rt: &impl Abort,
    layout: &L,
    map: &mut StripeMap,
    span: Span,
    want: Option<SplitFault>,
)
    requires { 1 ≤ span.count }
{
    let Span { first, count } = span;
    let fault = fault_of(layout, map, span);
    same(rt, (first, count, fault), (first, count, want));
    same(
        rt,
        (first, count, is_empty(map)),
        (first, count, fault.is_some()),
    );
}

#[test]
fn a_span_past_the_end_or_over_seventeen_stripes_is_refused(rt: HostRuntime) -> Result<(), Fail> {
    // Two blocks a stripe, 80 in all.
    let layout = make(&rt, 3, 1, 40);
    let mut map = StripeMap::with_room(rt.alloc())?;
    const TABLE: &[(u64, u32, Option<SplitFault>)] = &[
        (0, 32, None),
        (1, 31, None),
        (79, 1, None),
        (48, 32, None),
        (0, 33, Some(SplitFault::TooLong)),
        (1, 32, Some(SplitFault::TooLong)),
        (0, 80, Some(SplitFault::TooLong)),
        (0, 81, Some(SplitFault::OutOfRange)),
        (79, 2, Some(SplitFault::OutOfRange)),
        (80, 1, Some(SplitFault::OutOfRange)),
        (u64::MAX, u32::MAX, Some(SplitFault::OutOfRange)),
    ];
    for row in TABLE {
        let (first, count, want) = *row;
        if count > 0 {
            is_refused(&rt, &layout, &mut map, Span { first, count }, want);
        }
    }
    Ok(())
}

#[test]
fn sixteen_stripes_have_up_to_thirty_one_parts_here(rt: HostRuntime) -> Result<(), Fail> {
    let layout = make(&rt, 3, 1, 40);
    let mut map = StripeMap::with_room(rt.alloc())?;
    split(
        &layout,
        Span {
            first: 1,
            count: 31,
        },
        &mut map,
    )?;
    same(&rt, map.stripes().len(), 16);
    same(&rt, map.parts().len(), 31);
    Ok(())
}

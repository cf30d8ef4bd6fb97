//! The places of levels 0, 1, 4 and C against tables worked by hand, and what they aren't made of.
use crate::judging::same;
use crate::levels::place_of;
use lay_core::{Layout, Place, blocks};
use lay_plain::{Chain, MakeFault, Raid0, Raid1, Raid4};
use std::process::Abort;

// The place of this column and row.
fn at(place: (u32, u32)) -> Option<Place> {
    Some(Place {
        column: place.0,
        row: place.1,
    })
}

fn is_there(rt: &impl Abort, found: Option<Place>, place: (u32, u32), stripe: u32) {
    same(rt, (stripe, found), (stripe, at(place)));
}

// The two units of the stripe have these places.
fn lie_at<L: Layout>(rt: &impl Abort, layout: &L, stripe: u32, places: [(u32, u32); 2]) {
    let [first, second] = places;
    is_there(rt, place_of(layout, stripe, 0), first, stripe);
    is_there(rt, place_of(layout, stripe, 1), second, stripe);
}

// The layout has this width, and so many check units, stripes and blocks.
fn has<L: Layout>(rt: &impl Abort, layout: &L, numbers: (u32, u32, u32), in_all: u64) {
    let found = (layout.width(), layout.checks(), layout.stripes());
    same(rt, found, numbers);
    same(rt, blocks(layout), in_all);
}

// Each unit lies on the column of its number, in the row of its stripe.
fn lie_straight<L: Layout>(rt: &impl Abort, layout: &L) {
    for (stripe, unit) in [(0, 0), (0, 3), (1, 2), (2, 1)] {
        same(rt, place_of(layout, stripe, unit), at((unit, stripe)));
    }
}

// The layout has this width, and so many check units, rows and blocks.
fn has_rows<L: Layout>(rt: &impl Abort, layout: &L, numbers: (u32, u32, u32), in_all: u64) {
    same(
        rt,
        (layout.width(), layout.checks(), layout.rows()),
        numbers,
    );
    same(rt, blocks(layout), in_all);
}

#[test]
fn each_unit_has_a_column_of_its_own(rt: HostRuntime) {
    for (columns, of_zero, of_four) in [(4, 96, 72), (5, 120, 96)] {
        let zero = Raid0::new(columns, 8, 3).expect(&rt, "a layout");
        lie_straight(&rt, &zero);
        has_rows(&rt, &zero, (columns, 0, 3), of_zero);
        let four = Raid4::new(columns, 8, 3).expect(&rt, "a layout");
        lie_straight(&rt, &four);
        has_rows(&rt, &four, (columns, 1, 3), of_four);
    }
}

#[test]
fn pairs_take_stripes_in_turn(rt: HostRuntime) {
    let four = Raid1::new(4, 8, 3).expect(&rt, "a layout");
    let table = [
        (0, [(0, 0), (1, 0)]),
        (1, [(2, 0), (3, 0)]),
        (2, [(0, 1), (1, 1)]),
        (3, [(2, 1), (3, 1)]),
        (5, [(2, 2), (3, 2)]),
    ];
    for (stripe, places) in table {
        lie_at(&rt, &four, stripe, places);
    }
    same(&rt, place_of(&four, 6, 0), None);
    has(&rt, &four, (2, 1, 6), 48);
}

#[test]
fn three_pairs_too(rt: HostRuntime) {
    let six = Raid1::new(6, 8, 2).expect(&rt, "a layout");
    same(&rt, place_of(&six, 2, 1), at((5, 0)));
    same(&rt, place_of(&six, 3, 0), at((0, 1)));
}

#[test]
fn copies_are_on_the_next_column(rt: HostRuntime) {
    let four = Chain::new(4, 8, 4).expect(&rt, "a layout");
    let of_four = [
        (0, [(0, 0), (1, 1)]),
        (1, [(1, 0), (2, 1)]),
        (2, [(2, 0), (3, 1)]),
        (3, [(3, 0), (0, 1)]),
        (4, [(0, 2), (1, 3)]),
        (7, [(3, 2), (0, 3)]),
    ];
    for (stripe, places) in of_four {
        lie_at(&rt, &four, stripe, places);
    }
    same(&rt, place_of(&four, 8, 0), None);
}

#[test]
fn copies_of_an_odd_number_of_columns_too(rt: HostRuntime) {
    let five = Chain::new(5, 8, 4).expect(&rt, "a layout");
    let of_five = [
        (0, [(0, 0), (1, 1)]),
        (3, [(3, 0), (4, 1)]),
        (4, [(4, 0), (0, 1)]),
        (5, [(0, 2), (1, 3)]),
        (9, [(4, 2), (0, 3)]),
    ];
    for (stripe, places) in of_five {
        lie_at(&rt, &five, stripe, places);
    }
    has(&rt, &five, (2, 1, 10), 80);
}

#[test]
fn rows_make_few_enough_stripes(rt: HostRuntime) {
    let zero = [
        (0, 0, 0, Some(MakeFault::Columns)),
        (33, 1, 1, Some(MakeFault::Columns)),
        (1, 129, 0, Some(MakeFault::Unit)),
        (1, 128, 1_048_577, Some(MakeFault::Rows)),
        (1, 1, 1, None),
    ];
    for (columns, unit, rows, want) in zero {
        same(&rt, Raid0::new(columns, unit, rows).err(), want);
    }
}

#[test]
fn level_4_has_a_check_unit_and_enough_rows(rt: HostRuntime) {
    let four = [
        (1, 0, 0, Some(MakeFault::Columns)),
        (2, 0, 0, Some(MakeFault::Unit)),
        (2, 1, 0, Some(MakeFault::Rows)),
        (32, 128, 1_048_576, None),
    ];
    for (columns, unit, rows, want) in four {
        same(&rt, Raid4::new(columns, unit, rows).err(), want);
    }
}

#[test]
fn level_1_has_pairs_and_few_enough_stripes(rt: HostRuntime) {
    let one = [
        (0, 1, 1, Some(MakeFault::Columns)),
        (5, 0, 0, Some(MakeFault::Columns)),
        (34, 1, 1, Some(MakeFault::Columns)),
        (4, 129, 0, Some(MakeFault::Unit)),
        (4, 1, 0, Some(MakeFault::Rows)),
        (32, 1, 65_537, Some(MakeFault::Rows)),
        (32, 1, u32::MAX, Some(MakeFault::Rows)),
        (32, 128, 65_536, None),
        (2, 1, 1_048_576, None),
    ];
    for (columns, unit, rows, want) in one {
        same(&rt, Raid1::new(columns, unit, rows).err(), want);
    }
}

#[test]
fn level_c_has_even_rows_and_few_enough_stripes(rt: HostRuntime) {
    let chain = [
        (1, 0, 0, Some(MakeFault::Columns)),
        (2, 0, 1, Some(MakeFault::Unit)),
        (2, 1, 0, Some(MakeFault::Rows)),
        (2, 1, 3, Some(MakeFault::Rows)),
        (32, 1, 65_538, Some(MakeFault::Rows)),
        (32, 1, u32::MAX - 1, Some(MakeFault::Rows)),
        (32, 128, 65_536, None),
        (2, 1, 2, None),
    ];
    for (columns, unit, rows, want) in chain {
        same(&rt, Chain::new(columns, unit, rows).err(), want);
    }
}

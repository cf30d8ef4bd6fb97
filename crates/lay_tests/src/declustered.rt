//! Levels T and D against tables worked by hand, and what they aren't made of.
use crate::judging::{same, same_at};
use lay_core::{Layout, Place, blocks};
use lay_decluster::{Declustered, Spared, TableFault};
use lay_design::Design;
use std::alloc::Global;
use std::process::Abort;

// Seven tuples of three of seven objects: 0 1 3 moved on.
fn seven(rt: &impl Abort, alloc: Global) -> Design {
    Design::cyclic(alloc, 7, &[0, 1, 3]).expect(rt, "a design")
}

// The place of this column and row.
fn at(place: (u32, u32)) -> Option<Place> {
    Some(Place {
        column: place.0,
        row: place.1,
    })
}

fn place_of<L: Layout>(layout: &L, stripe: u32, unit: u32) -> Option<Place> {
    if stripe < layout.stripes() && unit < layout.width() {
        Some(layout.place(stripe, unit))
    } else {
        None
    }
}

fn spare_of<L: Layout>(layout: &L, stripe: u32) -> Option<Place> {
    if stripe < layout.stripes() {
        layout.spare_place(stripe)
    } else {
        None
    }
}

// The layout has so many columns, this width, and so many check units, stripes, rows and blocks.
fn has<L: Layout>(rt: &impl Abort, layout: &L, across: (u32, u32, u32), in_all: (u32, u32, u64)) {
    same(
        rt,
        (layout.columns(), layout.width(), layout.checks()),
        across,
    );
    same(
        rt,
        (layout.stripes(), layout.rows(), blocks(layout)),
        in_all,
    );
}

// The three units of the stripe have these places.
fn lie_at<L: Layout>(rt: &impl Abort, layout: &L, stripe: u32, places: [(u32, u32); 3]) {
    for (unit, place) in places.iter().enumerate() {
        let unit = unit as u32;
        let found = place_of(layout, stripe, unit);
        same_at(rt, (unit, stripe), found, at(*place));
    }
}

fn is_there(rt: &impl Abort, found: Option<Place>, place: (u32, u32), what: &str, stripe: u32) {
    same(rt, (what, stripe, found), (what, stripe, at(place)));
}

// The stripe's data unit, check unit and spare place have these places.
fn spares_at<L: Layout>(rt: &impl Abort, layout: &L, stripe: u32, places: [(u32, u32); 3]) {
    let [data, check, spare] = places;
    is_there(
        rt,
        place_of(layout, stripe, 0),
        data,
        "the data unit",
        stripe,
    );
    is_there(
        rt,
        place_of(layout, stripe, 1),
        check,
        "the check unit",
        stripe,
    );
    is_there(
        rt,
        spare_of(layout, stripe),
        spare,
        "the spare place",
        stripe,
    );
}

// Unit 0, unit 1 and the check unit, by column and row.
#[test]
fn check_units_move_on_with_each_copy(rt: HostRuntime) {
    let design = seven(&rt, rt.alloc());
    let layout = Declustered::new(rt.alloc(), design, 4, 18).expect(&rt, "a layout");
    let table = [
        (0, [(1, 0), (3, 0), (0, 0)]),
        (1, [(2, 0), (4, 0), (1, 1)]),
        (2, [(3, 1), (5, 0), (2, 1)]),
        (3, [(4, 1), (6, 0), (3, 2)]),
        (4, [(5, 1), (0, 1), (4, 2)]),
        (5, [(6, 1), (1, 2), (5, 2)]),
        (6, [(0, 2), (2, 2), (6, 2)]),
        (7, [(0, 3), (3, 3), (1, 3)]),
        (20, [(6, 8), (0, 8), (2, 8)]),
        (21, [(1, 9), (3, 9), (0, 9)]),
    ];
    for (stripe, places) in table {
        lie_at(&rt, &layout, stripe, places);
    }
    has(&rt, &layout, (7, 3, 1), (42, 18, 336));
    same(&rt, spare_of(&layout, 0), None);
}

// The data unit, the check unit and the spare place, by column and row.
#[test]
fn spare_places_are_behind_check_units(rt: HostRuntime) {
    let design = seven(&rt, rt.alloc());
    let layout = Spared::new(rt.alloc(), design, 1, 63).expect(&rt, "a layout");
    let table = [
        [(3, 0), (0, 0), (1, 0)],
        [(4, 0), (1, 1), (2, 0)],
        [(5, 0), (2, 1), (3, 1)],
        [(6, 0), (3, 2), (4, 1)],
        [(0, 1), (4, 2), (5, 1)],
        [(1, 2), (5, 2), (6, 1)],
        [(2, 2), (6, 2), (0, 2)],
        [(0, 3), (1, 3), (3, 3)],
        [(1, 4), (2, 3), (4, 3)],
        [(2, 4), (3, 4), (5, 3)],
        [(3, 5), (4, 4), (6, 3)],
        [(4, 5), (5, 4), (0, 4)],
        [(5, 5), (6, 4), (1, 5)],
        [(6, 5), (0, 5), (2, 5)],
        [(1, 6), (3, 6), (0, 6)],
        [(2, 6), (4, 6), (1, 7)],
        [(3, 7), (5, 6), (2, 7)],
        [(4, 7), (6, 6), (3, 8)],
        [(5, 7), (0, 7), (4, 8)],
        [(6, 7), (1, 8), (5, 8)],
        [(0, 8), (2, 8), (6, 8)],
        [(3, 9), (0, 9), (1, 9)],
    ];
    for stripe in 0..22 {
        spares_at(&rt, &layout, stripe, table[stripe as usize]);
    }
    has(&rt, &layout, (7, 2, 1), (147, 63, 147));
}

fn lies_on<L: Layout>(layout: &L, stripe: u32, column: u32) -> bool {
    for unit in 0..layout.width() {
        if place_of(layout, stripe, unit).is_some_and(|place| place.column == column) {
            return true;
        }
    }
    false
}

// How many of the stripes 21 to 41, the second full table, have units on both columns.
fn shared<L: Layout>(layout: &L, x: u32, y: u32) -> u32 {
    let mut count = 0;
    for stripe in 21..42 {
        if lies_on(layout, stripe, x) && lies_on(layout, stripe, y) {
            count += 1;
        }
    }
    count
}

#[test]
fn columns_share_equally_many_stripes(rt: HostRuntime) {
    let t = Declustered::new(rt.alloc(), seven(&rt, rt.alloc()), 1, 18).expect(&rt, "a layout");
    let d = Spared::new(rt.alloc(), seven(&rt, rt.alloc()), 1, 18).expect(&rt, "a layout");
    for (x, y) in [(0, 1), (0, 6), (2, 5), (3, 4), (6, 1)] {
        let both = (shared(&t, x, y), shared(&d, x, y));
        same_at(&rt, (x, y), both, (3, 1));
    }
}

const TABLES: [(u32, u32, Option<TableFault>); 9] = [
    (0, 0, Some(TableFault::Unit)),
    (129, 9, Some(TableFault::Unit)),
    (1, 0, Some(TableFault::Rows)),
    (1, 8, Some(TableFault::Rows)),
    (128, 10, Some(TableFault::Rows)),
    (1, 449_397, Some(TableFault::Rows)),
    (1, 4_294_967_292, Some(TableFault::Rows)),
    (1, 9, None),
    (128, 449_388, None),
];

// A layout of level T is made of such units and rows, or none for that cause, and one of level D alike.
fn tables_make(rt: &impl Abort, alloc: Global, unit: u32, rows: u32, want: Option<TableFault>) {
    let t = Declustered::new(alloc, seven(rt, alloc), unit, rows).err();
    same_at(rt, (unit, rows), t, want);
    let d = Spared::new(alloc, seven(rt, alloc), unit, rows).err();
    same_at(rt, (unit, rows), d, want);
}

#[test]
fn a_layout_is_made_of_whole_tables_alone(rt: HostRuntime) {
    for (unit, rows, want) in TABLES {
        tables_make(&rt, rt.alloc(), unit, rows, want);
    }
}

// Pairs of two objects make a layout of level T, or none for that cause, and none of level D.
fn pairs_make(rt: &impl Abort, alloc: Global, unit: u32, rows: u32, at_t: Option<TableFault>) {
    let two = Design::complete(alloc, 2, 2).expect(rt, "a design");
    let t = Declustered::new(alloc, two, unit, rows).err();
    same_at(rt, (unit, rows), t, at_t);
    let two = Design::complete(alloc, 2, 2).expect(rt, "a design");
    let d = Spared::new(alloc, two, unit, rows).err();
    same_at(rt, (unit, rows), d, Some(TableFault::Width));
}

#[test]
fn designs_of_pairs_make_level_t_alone(rt: HostRuntime) {
    for (unit, rows, at_t) in [
        (0, 0, Some(TableFault::Unit)),
        (1, 1, Some(TableFault::Rows)),
        (1, 2, None),
    ] {
        pairs_make(&rt, rt.alloc(), unit, rows, at_t);
    }
}

//! Designs of the literature, and what is none.
use crate::judging::same;
use lay_design::{Design, DesignFault};
use std::alloc::Global;
use std::process::Abort;

fn list_of(alloc: Global, numbers: &[u32]) -> Option<Vec<u32>> {
    let mut list = Vec::new(alloc);
    for number in numbers {
        list.push(*number).ok()?;
    }
    Some(list)
}

fn objects_of(alloc: Global, design: &Design) -> Option<Vec<u32>> {
    let mut list = Vec::new(alloc);
    for tuple in 0..design.b() {
        for position in 0..design.k() {
            list.push(design.object(tuple, position)).ok()?;
        }
    }
    Some(list)
}

// The design has so many tuples and objects, so many objects a tuple, and so many tuples with one object and with two.
fn has(rt: &impl Abort, design: &Design, numbers: (u32, u32, u32, u32, u32)) {
    let found = (
        design.b(),
        design.v(),
        design.k(),
        design.r(),
        design.lambda(),
    );
    same(rt, found, numbers);
}

fn has_objects(rt: &impl Abort, alloc: Global, design: &Design, numbers: &[u32]) {
    same(rt, objects_of(alloc, design), list_of(alloc, numbers));
}

// The projective plane of order 2.
const FANO: &[u32] = &[
    0, 1, 2, 0, 3, 4, 0, 5, 6, 1, 3, 5, 1, 4, 6, 2, 3, 6, 2, 4, 5,
];

#[test]
fn the_fano_plane_is_a_design(rt: HostRuntime) {
    let list = list_of(rt.alloc(), FANO).expect(&rt, "memory");
    let fano = Design::check(rt.alloc(), 7, 7, 3, 3, 1, list).expect(&rt, "a design");
    has(&rt, &fano, (7, 7, 3, 3, 1));
    has_objects(&rt, rt.alloc(), &fano, FANO);
}

#[test]
fn a_base_tuple_is_moved_on(rt: HostRuntime) {
    let fano = Design::cyclic(rt.alloc(), 7, &[0, 1, 3]).expect(&rt, "a design");
    has(&rt, &fano, (7, 7, 3, 3, 1));
    const TABLE: &[u32] = &[
        0, 1, 3, 1, 2, 4, 2, 3, 5, 3, 4, 6, 4, 5, 0, 5, 6, 1, 6, 0, 2,
    ];
    has_objects(&rt, rt.alloc(), &fano, TABLE);
}

#[test]
fn a_base_tuple_of_squares_is_moved_on(rt: HostRuntime) {
    let paley = Design::cyclic(rt.alloc(), 11, &[1, 3, 4, 5, 9]).expect(&rt, "a design");
    has(&rt, &paley, (11, 11, 5, 5, 2));
}

#[test]
fn all_tuples_are_a_design(rt: HostRuntime) {
    let complete = Design::complete(rt.alloc(), 5, 3).expect(&rt, "a design");
    has(&rt, &complete, (10, 5, 3, 6, 3));
    const TABLE: &[u32] = &[
        0, 1, 2, 0, 1, 3, 0, 1, 4, 0, 2, 3, 0, 2, 4, 0, 3, 4, 1, 2, 3, 1, 2, 4, 1, 3, 4, 2, 3, 4,
    ];
    has_objects(&rt, rt.alloc(), &complete, TABLE);
}

#[test]
fn all_tuples_of_other_counts_are_refused(rt: HostRuntime) {
    let count = Some(DesignFault::Count);
    for (v, k) in [(1, 1), (33, 2), (5, 1), (5, 6), (32, 16), (15, 6)] {
        same(&rt, Design::complete(rt.alloc(), v, k).err(), count);
    }
}

#[test]
fn a_base_tuple_that_makes_no_design_is_refused(rt: HostRuntime) {
    let count = Some(DesignFault::Count);
    for v in [1, 2, 33] {
        same(&rt, Design::cyclic(rt.alloc(), v, &[0, 1, 3]).err(), count);
    }
    same(
        &rt,
        Design::cyclic(rt.alloc(), 7, &[0, 1, 2]).err(),
        Some(DesignFault::Pair { x: 0, y: 1, has: 2 }),
    );
}

fn fault_of(alloc: Global, numbers: [u32; 5], tuples: &[u32]) -> Option<DesignFault> {
    let list = list_of(alloc, tuples)?;
    let [b, v, k, r, lambda] = numbers;
    Design::check(alloc, b, v, k, r, lambda, list).err()
}

#[test]
fn counts_are_told_first(rt: HostRuntime) {
    let count = Some(DesignFault::Count);
    const NUMBERS: &[[u32; 5]] = &[
        [0, 2, 2, 1, 1],
        [1, 1, 2, 1, 1],
        [1, 33, 2, 1, 1],
        [1, 2, 1, 1, 1],
        [1, 2, 3, 1, 1],
        [4_097, 2, 2, 4_097, 4_097],
        [2, 2, 2, 1, 1],
        [1, 2, 2, 2, 1],
        [1, 2, 2, 1, 2],
    ];
    for row in NUMBERS {
        let five = *row;
        same(&rt, fault_of(rt.alloc(), five, &[0, 1]), count);
    }
    same(&rt, fault_of(rt.alloc(), [1, 2, 2, 1, 1], &[0, 1]), None);
    same(
        &rt,
        fault_of(rt.alloc(), [1, 2, 2, 1, 1], &[0, 1, 0]),
        count,
    );
}

#[test]
fn the_first_cause_is_told_with_its_least_place(rt: HostRuntime) {
    let plane = [7, 7, 3, 3, 1];
    const TABLE: &[(&[u32], DesignFault)] = &[
        (
            &[
                0, 0, 2, 0, 3, 7, 0, 5, 9, 1, 3, 5, 1, 4, 6, 2, 3, 6, 2, 4, 5,
            ],
            DesignFault::Element {
                tuple: 1,
                element: 2,
            },
        ),
        (
            &[
                0, 1, 2, 0, 3, 4, 5, 0, 5, 1, 1, 5, 1, 4, 6, 2, 3, 6, 2, 4, 5,
            ],
            DesignFault::Repeat {
                tuple: 2,
                element: 2,
            },
        ),
        (
            &[
                0, 1, 2, 0, 3, 4, 0, 5, 6, 1, 3, 5, 1, 4, 6, 2, 3, 6, 2, 4, 6,
            ],
            DesignFault::Degree { object: 5, has: 2 },
        ),
        (
            &[
                0, 1, 2, 0, 3, 4, 0, 5, 6, 0, 3, 5, 1, 4, 6, 2, 3, 6, 2, 4, 5,
            ],
            DesignFault::Degree { object: 0, has: 4 },
        ),
        (
            &[
                1, 2, 3, 0, 1, 4, 2, 3, 5, 3, 4, 6, 0, 4, 5, 1, 5, 6, 0, 2, 6,
            ],
            DesignFault::Pair { x: 0, y: 3, has: 0 },
        ),
        (
            &[
                0, 1, 2, 0, 1, 2, 0, 5, 6, 3, 4, 5, 1, 4, 6, 3, 2, 6, 3, 4, 5,
            ],
            DesignFault::Pair { x: 0, y: 1, has: 2 },
        ),
    ];
    for row in TABLE {
        let (tuples, want) = *row;
        same(&rt, fault_of(rt.alloc(), plane, tuples), Some(want));
    }
}

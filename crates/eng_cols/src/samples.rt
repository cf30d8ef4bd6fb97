//! A layout with spare places, for examples and tests.
use lay_core::{Layout, Place};

/// Three units and a spare place on four columns, four stripes, each in the row of its number. In stripes 0 to 3 the
/// units lie on the columns 0 1 2, 1 2 3, 2 3 0 and 3 0 1, the check unit last, and the spare places on 3, 0, 1 and 2.
#[derive(Drop)]
pub struct Spared;

impl Layout for Spared {
    ghost use Rattle.eng_cols.specs.Samples.{spared, spared_lawful};

    ghost shape = { λ _. spared };

    ghost is_layout = { λ _. spared_lawful };

    fn columns(&self) -> u32 {
        4
    }

    fn width(&self) -> u32 {
        3
    }

    fn checks(&self) -> u32 {
        1
    }

    fn unit_sectors(&self) -> u32 {
        1
    }

    fn stripes(&self) -> u32 {
        4
    }

    fn rows(&self) -> u32 {
        4
    }

    fn place(&self, stripe: u32, unit: u32) -> Place {
        Place {
            column: (stripe + unit) % 4,
            row: stripe,
        }
    }

    fn spare_place(&self, stripe: u32) -> Option<Place> {
        Some(Place {
            column: (stripe + 3) % 4,
            row: stripe,
        })
    }
}

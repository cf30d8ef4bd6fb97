//! One of the seven layouts.
use lay_core::{Layout, Place};
use lay_decluster::{Declustered, Spared};
use lay_plain::{Chain, Raid0, Raid1, Raid4, Raid5};

/// One of the seven layouts, which is a layout itself.
#[derive(Drop)]
pub enum AnyLayout {
    /// Stripes without a check unit.
    Level0(Raid0),
    /// Mirrored pairs of columns.
    Level1(Raid1),
    /// Stripes with the check unit on the last column.
    Level4(Raid4),
    /// Stripes with rotated check units, left-symmetric.
    Level5(Raid5),
    /// Chained declustering.
    LevelC(Chain),
    /// Parity declustering.
    LevelT(Declustered),
    /// Parity declustering with distributed spare places.
    LevelD(Spared),
}

impl Layout for AnyLayout {
    ghost use Rattle.raid_conf.specs.Layouts.{shape_in, shape_lawful};

    ghost shape = { λ layout. shape_in layout };

    ghost is_layout = { λ layout. shape_lawful layout };

    fn columns(&self) -> u32 {
        match self {
            AnyLayout::Level0(layout) => layout.columns(),
            AnyLayout::Level1(layout) => layout.columns(),
            AnyLayout::Level4(layout) => layout.columns(),
            AnyLayout::Level5(layout) => layout.columns(),
            AnyLayout::LevelC(layout) => layout.columns(),
            AnyLayout::LevelT(layout) => layout.columns(),
            AnyLayout::LevelD(layout) => layout.columns(),
        }
    }

    fn width(&self) -> u32 {
        match self {
            AnyLayout::Level0(layout) => layout.width(),
            AnyLayout::Level1(layout) => layout.width(),
            AnyLayout::Level4(layout) => layout.width(),
            AnyLayout::Level5(layout) => layout.width(),
            AnyLayout::LevelC(layout) => layout.width(),
            AnyLayout::LevelT(layout) => layout.width(),
            AnyLayout::LevelD(layout) => layout.width(),
        }
    }

    fn checks(&self) -> u32 {
        match self {
            AnyLayout::Level0(layout) => layout.checks(),
            AnyLayout::Level1(layout) => layout.checks(),
            AnyLayout::Level4(layout) => layout.checks(),
            AnyLayout::Level5(layout) => layout.checks(),
            AnyLayout::LevelC(layout) => layout.checks(),
            AnyLayout::LevelT(layout) => layout.checks(),
            AnyLayout::LevelD(layout) => layout.checks(),
        }
    }

    fn unit_sectors(&self) -> u32 {
        match self {
            AnyLayout::Level0(layout) => layout.unit_sectors(),
            AnyLayout::Level1(layout) => layout.unit_sectors(),
            AnyLayout::Level4(layout) => layout.unit_sectors(),
            AnyLayout::Level5(layout) => layout.unit_sectors(),
            AnyLayout::LevelC(layout) => layout.unit_sectors(),
            AnyLayout::LevelT(layout) => layout.unit_sectors(),
            AnyLayout::LevelD(layout) => layout.unit_sectors(),
        }
    }

    fn stripes(&self) -> u32 {
        match self {
            AnyLayout::Level0(layout) => layout.stripes(),
            AnyLayout::Level1(layout) => layout.stripes(),
            AnyLayout::Level4(layout) => layout.stripes(),
            AnyLayout::Level5(layout) => layout.stripes(),
            AnyLayout::LevelC(layout) => layout.stripes(),
            AnyLayout::LevelT(layout) => layout.stripes(),
            AnyLayout::LevelD(layout) => layout.stripes(),
        }
    }

    fn rows(&self) -> u32 {
        match self {
            AnyLayout::Level0(layout) => layout.rows(),
            AnyLayout::Level1(layout) => layout.rows(),
            AnyLayout::Level4(layout) => layout.rows(),
            AnyLayout::Level5(layout) => layout.rows(),
            AnyLayout::LevelC(layout) => layout.rows(),
            AnyLayout::LevelT(layout) => layout.rows(),
            AnyLayout::LevelD(layout) => layout.rows(),
        }
    }

    fn place(&self, stripe: u32, unit: u32) -> Place {
        match self {
            AnyLayout::Level0(layout) => layout.place(stripe, unit),
            AnyLayout::Level1(layout) => layout.place(stripe, unit),
            AnyLayout::Level4(layout) => layout.place(stripe, unit),
            AnyLayout::Level5(layout) => layout.place(stripe, unit),
            AnyLayout::LevelC(layout) => layout.place(stripe, unit),
            AnyLayout::LevelT(layout) => layout.place(stripe, unit),
            AnyLayout::LevelD(layout) => layout.place(stripe, unit),
        }
    }

    fn spare_place(&self, stripe: u32) -> Option<Place> {
        match self {
            AnyLayout::Level0(layout) => layout.spare_place(stripe),
            AnyLayout::Level1(layout) => layout.spare_place(stripe),
            AnyLayout::Level4(layout) => layout.spare_place(stripe),
            AnyLayout::Level5(layout) => layout.spare_place(stripe),
            AnyLayout::LevelC(layout) => layout.spare_place(stripe),
            AnyLayout::LevelT(layout) => layout.spare_place(stripe),
            AnyLayout::LevelD(layout) => layout.spare_place(stripe),
        }
    }
}

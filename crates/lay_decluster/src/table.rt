//! The table of a declustered layout.
ghost use Rattle.std.specs.Prelude.{◌≡◌, ◌<◌, ◌≤◌, ◌+◌, ◌*◌, ◌/◌, IfOk};
ghost use Rattle.lay_design.specs.Design.{IsDesign};
ghost use Rattle.lay_decluster.specs.Table.{seat, copy_of};

use crate::offsets::offsets_of;
use lay_core::Place;
use lay_design::Design;
use std::alloc::{AllocError, Global};
use std::marker::Model;

/// A design, and how many earlier tuples have each position's object.
///
/// One copy of the design fills r rows of every column, so the rows of all further copies follow from
/// those of the first: b k numbers are kept, however many rows there are.
#[derive(Drop)]
pub(crate) struct Table {
    design: Design,
    offsets: Vec<u32>,
}

impl Model for Table {
    ghost use Rattle.lay_design.specs.Design.{Blocks};
    ghost use Rattle.lay_decluster.specs.Offsets.{AreOffsets};

    ghost Value = { Blocks };

    ghost view = { λ t. t.design };

    ghost invariant = { λ t. AreOffsets t.design t.design.b t.offsets.items };
}

impl Table {
    pub(crate) fn new(alloc: Global, design: Design) -> Result<Table, AllocError>
        ensures { IfOk result (λ table. table ≡ design) }
    {
        let offsets = offsets_of(alloc, &design)?;
        Ok(Table { design, offsets })
    }

    pub(crate) fn design(&self) -> &Design
        ensures { result.now ≡ self.now }
    {
        &self.design
    }

    /// The copy of the design that a stripe belongs to, among the k copies of its full table.
    pub(crate) fn copy_of(&self, stripe: u32) -> u32
        ensures copy { result ≡ copy_of self.now stripe }
        ensures below { result < self.now.k }
    {
        stripe / self.design.b() % self.design.k()
    }

    pub(crate) fn seat(&self, stripe: u32, position: u32) -> Place
        requires position { position < self.now.k }
        requires fits { stripe / self.now.b * self.now.r + self.now.r ≤ 4294967295 }
        ensures { result ≡ seat self.now stripe position }
    {
        let copy = stripe / self.design.b();
        let tuple = stripe % self.design.b();
        let offset = self.offsets[(tuple * self.design.k() + position) as usize];
        Place {
            column: self.design.object(tuple, position),
            row: copy * self.design.r() + offset,
        }
    }
}

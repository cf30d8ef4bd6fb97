//! Making the layout that a configuration describes.
ghost use Rattle.std.specs.Prelude.{◌≡◌, IfErr, IfOk};
ghost use Rattle.raid_conf.specs.Designs.{blocks_of};
ghost use Rattle.raid_conf.specs.Layouts.{design_shape, IsAnyFault, IsDesignFault, IsMakeable, IsMakeFault, of_design, of_table, plain_of, plain_shape, shape_in, shape_of};

use crate::any_fault::AnyFault;
use crate::conf::Conf;
use crate::designs::{design_of, has_design};
use crate::given::Given;
use crate::layouts::AnyLayout;
use crate::plain::Plain;
use lay_decluster::{Declustered, Spared, TableFault};
use lay_design::{Design, DesignFault};
use lay_plain::{Chain, MakeFault, Raid0, Raid1, Raid4, Raid5};
use std::alloc::Global;

// The layout of a level that stands on no block design.
#[tactic(auto, unfolding(crate::specs::Layouts::plain_of))]
pub(crate) fn plain_of(level: u8) -> Plain
    ensures { result ≡ plain_of level }
{
    match level {
        b'0' => Plain::Striped,
        b'1' => Plain::Mirrored,
        b'4' => Plain::LastChecked,
        b'5' => Plain::LeftSymmetric,
        _ => Plain::Chained,
    }
}

fn make_plain(plain: Plain, columns: u32, unit: u32, rows: u32) -> Result<AnyLayout, MakeFault>
    ensures made { IfOk result (λ layout. shape_in layout ≡ plain_shape plain columns unit rows) }
    ensures err { IfErr result (λ fault. IsMakeFault plain columns unit rows fault) }
{
    match plain {
        Plain::Striped => match Raid0::new(columns, unit, rows) {
            Ok(layout) => Ok(AnyLayout::Level0(layout)),
            Err(fault) => Err(fault),
        },
        Plain::Mirrored => match Raid1::new(columns, unit, rows) {
            Ok(layout) => Ok(AnyLayout::Level1(layout)),
            Err(fault) => Err(fault),
        },
        Plain::LastChecked => match Raid4::new(columns, unit, rows) {
            Ok(layout) => Ok(AnyLayout::Level4(layout)),
            Err(fault) => Err(fault),
        },
        Plain::LeftSymmetric => match Raid5::new(columns, unit, rows) {
            Ok(layout) => Ok(AnyLayout::Level5(layout)),
            Err(fault) => Err(fault),
        },
        Plain::Chained => match Chain::new(columns, unit, rows) {
            Ok(layout) => Ok(AnyLayout::LevelC(layout)),
            Err(fault) => Err(fault),
        },
    }
}

// What a declustered layout's fault is to a configuration.
fn table_fault(fault: TableFault) -> AnyFault
    ensures { result ≡ of_table fault }
{
    match fault {
        TableFault::Memory => AnyFault::Memory,
        fault => AnyFault::Table(fault),
    }
}

#[tactic(auto, unfolding(crate::specs::Layouts::design_shape))]
fn make_tables(
    alloc: Global,
    level: u8,
    design: Design,
    unit: u32,
    rows: u32,
) -> Result<AnyLayout, AnyFault>
    ensures made { IfOk result (λ layout. shape_in layout ≡ design_shape level design unit rows) }
    ensures err { IfErr result (λ fault. IsDesignFault level design unit rows fault) }
{
    if level == b'D' {
        match Spared::new(alloc, design, unit, rows) {
            Ok(layout) => Ok(AnyLayout::LevelD(layout)),
            Err(fault) => Err(table_fault(fault)),
        }
    } else {
        match Declustered::new(alloc, design, unit, rows) {
            Ok(layout) => Ok(AnyLayout::LevelT(layout)),
            Err(fault) => Err(table_fault(fault)),
        }
    }
}

// What a design's fault is to a configuration.
fn design_fault(fault: DesignFault) -> AnyFault
    ensures { result ≡ of_design fault }
{
    match fault {
        DesignFault::Memory => AnyFault::Memory,
        fault => AnyFault::Design(fault),
    }
}

fn make_given(
    alloc: Global,
    level: u8,
    given: &Given,
    unit: u32,
    rows: u32,
) -> Result<AnyLayout, AnyFault>
    ensures made { IfOk result
        (λ layout. shape_in layout ≡ design_shape level (blocks_of given.now) unit rows) }
    ensures err { IfErr result
        (λ fault. IsDesignFault level (blocks_of given.now) unit rows fault) }
{
    match design_of(alloc, given) {
        Ok(design) => make_tables(alloc, level, design, unit, rows),
        Err(fault) => Err(design_fault(fault)),
    }
}

impl AnyLayout {
    /// The layout that a configuration describes, with so many rows. Its level is one of the seven,
    /// and at levels T and D it has a design.
    ///
    /// # Errors
    ///
    /// `Make`, `Design` or `Table` exactly where that maker refuses, with the first cause; `Memory`
    /// where there is none for the design or its table.
    pub fn make(alloc: Global, conf: &Conf, rows: u32) -> Result<AnyLayout, AnyFault>
        requires { IsMakeable conf.now }
        ensures made { IfOk result (λ layout. shape_in layout ≡ shape_of conf.now rows) }
        ensures err { IfErr result (λ fault. IsAnyFault conf.now rows fault) }
    {
        if !has_design(conf.level) {
            return match make_plain(plain_of(conf.level), conf.columns, conf.unit, rows) {
                Ok(layout) => Ok(layout),
                Err(fault) => Err(AnyFault::Make(fault)),
            };
        }
        match &conf.design {
            Some(given) => make_given(alloc, conf.level, given, conf.unit, rows),
            None => unreachable!(),
        }
    }
}

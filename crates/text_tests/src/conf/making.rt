//! The layouts that configurations describe.
ghost use Rattle.raid_conf.specs.Form.{IsConf};

use crate::conf::read;
use crate::judging::same;
use lay_core::Layout;
use lay_plain::MakeFault;
use raid_conf::{AnyFault, AnyLayout, Conf};
use std::alloc::Global;

// An array of seven columns at level T, whose full table has nine rows and 21 stripes.
const FANO: &[u8] =
    b"START array\n7 0\nSTART disks\na\nb\nc\nd\ne\nf\ng\nSTART layout\n1 1 1 T\ncyclic 7 : 0 1 3\n";

#[test]
fn a_declustered_array_has_its_places(rt: HostRuntime) {
    let conf = read(&rt, rt.alloc(), FANO);
    same(&rt, (conf.level, conf.design.is_some()), (b'T', true));
    let layout = AnyLayout::make(rt.alloc(), &conf, 9).expect(&rt, "a layout");
    assert!(rt; layout.columns() == 7 && layout.width() == 3 && layout.stripes() == 21);
    let place = layout.place(7, 0);
    same(&rt, (place.column, place.row), (0, 3));
}

// Why an array of so many rows isn't made.
fn refusal(alloc: Global, conf: &Conf, rows: u32) -> Option<AnyFault>
    requires { IsConf conf.now }
{
    AnyLayout::make(alloc, conf, rows).err()
}

#[test]
fn a_mirrored_array_has_a_row_at_least(rt: HostRuntime) {
    let text = b"START array\n2 0\nSTART disks\na\nb\nSTART layout\n1 1 1 1\n";
    let conf = read(&rt, rt.alloc(), text);
    same(&rt, conf.level, b'1');
    let wanted = Some(AnyFault::Make(MakeFault::Rows));
    same(&rt, refusal(rt.alloc(), &conf, 0), wanted);
}

//! Devices, columns and items of the arrays that these tests serve.
ghost use Rattle.std.specs.Prelude.{◌≡◌, ◌≤◌, [], ◌∷◌, IfOk, Some, count_by, length};
ghost use Rattle.blk_disk.specs.Mem.{mem_bytes};
ghost use Rattle.eng_cols.specs.Cols.{IsFor, is_set_filling, is_set_spread};
ghost use Rattle.eng_cols.specs.Lost.{NotLost};
ghost use Rattle.eng_cols.specs.Stripes.{states_of};
ghost use Rattle.crew_tests.specs.Trial.{IsSmall};

use blk_disk::{MemDisk, SECTOR};
use blk_plain::{Op, Pattern, Span};
use eng_array::{Column, Item};
use eng_cols::Cols;
use lay_core::Layout;
use std::alloc::{AllocError, Global};
use std::test::Fail;

/// A device of 128 sectors of zeros, but for the first byte of sector 64, that fails its calls of
/// these numbers.
pub(crate) fn device(alloc: Global, byte: u8, fails: &[u32]) -> Result<MemDisk, Fail>
    ensures { IfOk result (λ disk. length (mem_bytes disk) ≡ 65536) }
{
    let mut bytes = vec![in alloc; 0; SECTOR * 128]?;
    bytes[SECTOR * 64] = byte;
    let fails = fails.to_vec(alloc)?;
    Ok(MemDisk::new(alloc, bytes, fails, 100)?)
}

/// The two devices, by number.
pub(crate) fn pair<D: Drop>(
    alloc: Global,
    first: D,
    second: D,
) -> Result<Vec<Option<D>>, AllocError>
    ensures { IfOk result (λ devices. devices.items ≡ Some first ∷ Some second ∷ []) }
{
    let mut devices = Vec::with_capacity(alloc, 2)?;
    devices.push_reserved(Some(first));
    devices.push_reserved(Some(second));
    Ok(devices)
}

/// Room for the columns, by which an array isn't lost.
pub(crate) fn judged<L: Layout>(alloc: Global, layout: &L, columns: &[Column]) -> Result<Cols, Fail>
    requires entries { length columns.now ≡ (L.shape layout.now).columns }
    requires filling { count_by is_set_filling columns.now ≤ 1 }
    requires spread { count_by is_set_spread columns.now ≡ 0 }
    ensures judge { IfOk result (IsFor (L.shape layout.now)) }
    ensures kept { IfOk result (λ _. NotLost (L.shape layout.now)
        (states_of (L.shape layout.now) columns.now)) }
{
    let Ok(mut judge) = Cols::with_room(alloc, layout.columns(), layout.stripes()) else {
        return Err(Fail::from("no memory"));
    };
    judge.set(layout, columns);
    match judge.lost(layout) {
        None => Ok(judge),
        Some(_) => Err(Fail::from("lost")),
    }
}

pub(crate) fn write(block: u64, byte: u8) -> Item
    ensures { IsSmall result }
{
    let mut bytes = [0; 32];
    bytes[0] = byte;
    Item::Run {
        op: Op::Write {
            span: Span {
                first: block,
                count: 1,
            },
            pattern: Pattern { len: 1, bytes },
        },
        graph: None,
    }
}

pub(crate) fn read(block: u64, count: u32) -> Item
    requires some { 1 ≤ count }
    requires few { count ≤ 4 }
    ensures { IsSmall result }
{
    Item::Run {
        op: Op::Read {
            span: Span {
                first: block,
                count,
            },
        },
        graph: None,
    }
}

//! One call of one device of a list.
ghost use Rattle.std.specs.Prelude.{◌≡◌, ◌<◌, ◌≤◌, ◌+◌, ◌*◌, length, is_ok};
ghost use Rattle.blk_disk.specs.Devices.{size_of};
ghost use Rattle.raid_recon.specs.Units.{IsRead, IsReadInto, IsWritten};

use blk_disk::{DATA_SECTOR, Disk, Failed, SECTOR};
use eng_cols::Spot;

fn first_sector(at: Spot, unit_sectors: u32) -> u64
    ensures { result ≡ 64 + at.row * unit_sectors }
{
    DATA_SECTOR + u64::from(at.row) * u64::from(unit_sectors)
}

/// Reads rows, so many, from the one on that stands there.
pub(crate) fn read_at<D: Disk>(
    devices: &mut [Option<D>],
    at: Spot,
    unit_sectors: u32,
    rows: u32,
    into: &mut [u8],
) -> Result<(), Failed>
    requires there { at.device < length devices.old }
    requires long { length into.old ≡ 512 * (rows * unit_sectors) }
    requires some { 1 ≤ rows * unit_sectors }
    requires few { rows * unit_sectors ≤ 128 }
    requires fits { 64 + at.row * unit_sectors + rows * unit_sectors
        ≤ size_of D.Disk devices.old at.device }
    ensures read { IsRead D.Disk at unit_sectors (rows * unit_sectors)
        devices.old devices.new into.new (is_ok result) }
    ensures long { length into.new ≡ length into.old }
{
    match &mut devices[at.device as usize] {
        Some(disk) => disk.read(first_sector(at, unit_sectors), into),
        None => unreachable!(),
    }
}

/// Reads rows, so many, from the one on that stands there, into a part of these bytes that begins at this
/// sector of them.
pub(crate) fn read_into<D: Disk>(
    devices: &mut [Option<D>],
    at: Spot,
    unit_sectors: u32,
    rows: u32,
    bytes: &mut [u8],
    first: usize,
) -> Result<(), Failed>
    requires there { at.device < length devices.old }
    requires some { 1 ≤ rows * unit_sectors }
    requires few { rows * unit_sectors ≤ 128 }
    requires inside { 512 * first + 512 * (rows * unit_sectors) ≤ length bytes.old }
    requires fits { 64 + at.row * unit_sectors + rows * unit_sectors
        ≤ size_of D.Disk devices.old at.device }
    ensures read { IsReadInto D.Disk at unit_sectors (rows * unit_sectors)
        devices.old devices.new first bytes.old bytes.new (is_ok result) }
    ensures long { length bytes.new ≡ length bytes.old }
{
    let begin = SECTOR * first;
    let long = SECTOR * (rows as usize * unit_sectors as usize);
    read_at(
        devices,
        at,
        unit_sectors,
        rows,
        &mut bytes[begin..begin + long],
    )
}

pub(crate) fn write_at<D: Disk>(
    devices: &mut [Option<D>],
    at: Spot,
    unit_sectors: u32,
    from: &[u8],
) -> Result<(), Failed>
    requires there { at.device < length devices.old }
    requires long { length from.now ≡ 512 * unit_sectors }
    requires some { 1 ≤ unit_sectors }
    requires fits { 64 + at.row * unit_sectors + unit_sectors
        ≤ size_of D.Disk devices.old at.device }
    ensures { IsWritten D.Disk at unit_sectors devices.old devices.new from.now (is_ok result) }
{
    match &mut devices[at.device as usize] {
        Some(disk) => disk.write(first_sector(at, unit_sectors), from),
        None => unreachable!(),
    }
}

//! The room in which a stripe's units are summed.
ghost use Rattle.std.specs.Prelude.{◌≡◌, IfOk};

use crate::memory::Memory;
use raid_progress::Progress;
use std::alloc::Global;
use std::marker::Model;

/// Room for a stripe's sum, and for rows that are read ahead. Contracts see how many bytes it has. A sweep
/// needs 1,024 for each sector of a unit. It reads all units of a stripe before it sums them where there are 512
/// for each sector of a unit, and as many for each sector of one unit of each column; it reads several rows by
/// one call where there are as many for each of two.
#[derive(Drop)]
pub struct Room {
    pub(crate) bytes: Vec<u8>,
}

impl Model for Room {
    ghost use Rattle.std.specs.Prelude.{ℕ, length};

    ghost Value = { ℕ };

    ghost view = { λ r. length r.bytes.items };
}

impl Room {
    /// Room of so many bytes. The only error is want of memory.
    pub fn open(alloc: Global, bytes: u32) -> Result<Room, Memory>
        ensures { IfOk result (λ room. room ≡ bytes) }
    {
        Ok(Room {
            bytes: vec![in alloc; 0; bytes as usize]?,
        })
    }
}

/// Room for a sweep, and who is told after each stripe how many of all are done. Contracts see how
/// many bytes the room has.
#[derive(Drop)]
pub struct SweepRoom<P> {
    pub(crate) room: Room,
    pub(crate) progress: P,
}

impl<P> Model for SweepRoom<P> {
    ghost use Rattle.std.specs.Prelude.{ℕ};

    ghost Value = { ℕ };

    ghost view = { λ r. r.room };
}

impl<P: Progress> SweepRoom<P> {
    /// The room, and who is told.
    pub fn new(room: Room, progress: P) -> SweepRoom<P>
        ensures { result ≡ room }
    {
        SweepRoom { room, progress }
    }
}

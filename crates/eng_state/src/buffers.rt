//! A buffer leaves.
ghost use Rattle.std.specs.Prelude.{◌≡◌, ◌<◌, false, length, get_or};
ghost use Rattle.buf_pool.specs.Pool.{IsLease, taken};
ghost use Rattle.eng_clients.specs.Seats.{seat_of, bytes_at};
ghost use Rattle.eng_clients.specs.Desk.{desk_at};

use crate::array::Array;
use blk_disk::Disk;
use buf_pool::Buffer;
use lay_core::Layout;

impl<L: Layout, D: Disk> Array<L, D> {
    /// A buffer leaves the pool: the one of this number in the client's lease.
    pub fn buffer_leaves(&mut self, client: u32, buf: u32) -> Buffer
        requires client { client < length self.old.clients }
        requires lease { IsLease self.old.pool (desk_at self.old.clients client).lease }
        requires buf { buf < length (desk_at self.old.clients client).lease }
        requires home { (seat_of self.old.pool (desk_at self.old.clients client) buf).out ≡ false }
        ensures bytes { result
            ≡ bytes_at self.old.pool (desk_at self.old.clients client).lease buf }
        ensures long { length result ≡ self.old.pool.unit }
        ensures now { self.new ≡ record self.old
            { pool = taken self.old.pool (get_or (desk_at self.old.clients client).lease buf 0) } }
    {
        self.clients.take(client, buf, &mut self.pool)
    }
}

//! What comes home with a job.
ghost use Rattle.std.specs.Prelude.{◌≡◌, ◌<◌, ◌≤◌, ◌+◌, [], true, length, get_or, slice_set, vec_capacity};
ghost use Rattle.buf_pool.specs.Pool.{IsLease, put};
ghost use Rattle.eng_parts.specs.Shelf.{IsAway, come_home};
ghost use Rattle.eng_clients.specs.Seats.{seat_of};
ghost use Rattle.eng_clients.specs.Desk.{desk_at, with_ended};
ghost use Rattle.eng_state.specs.Moves.{CanEnd, CameHome, CamePlain};

use crate::array::Array;
use blk_disk::Disk;
use blk_plain::Outcome;
use buf_pool::Buffer;
use eng_cols::Spot;
use eng_job::Source;
use lay_core::Layout;

/// What comes home with a read or a write: its device, its buffer and its list of sources, which is empty.
pub struct Coming<D> {
    pub disk: D,
    pub buffer: Buffer,
    pub sources: Vec<Source>,
}

impl<L: Layout, D: Disk> Array<L, D> {
    fn device_home(&mut self, device: u32, disk: D)
        requires { (x : D) × IsAway self.old.devices device x }
        ensures { self.new ≡ record self.old { devices = come_home self.old.devices device disk } }
    {
        self.devices.put(device, disk);
    }

    /// A buffer comes home to the pool: the one of this number in the client's lease, with what it holds now.
    pub fn buffer_home(&mut self, client: u32, buf: u32, buffer: Buffer)
        requires client { client < length self.old.clients }
        requires lease { IsLease self.old.pool (desk_at self.old.clients client).lease }
        requires buf { buf < length (desk_at self.old.clients client).lease }
        requires out { (seat_of self.old.pool (desk_at self.old.clients client) buf).out ≡ true }
        requires long { length buffer ≡ self.old.pool.unit }
        ensures { self.new ≡ record self.old {
          pool = put self.old.pool
              (get_or (desk_at self.old.clients client).lease buf 0) buffer;
        } }
    {
        self.clients.put(client, buf, buffer, &mut self.pool);
    }

    // A list comes home empty.
    fn list_home(&mut self, sources: Vec<Source>)
        requires few { self.old.lists < 32 }
        requires empty { sources.items ≡ [] }
        requires room { 2048 ≤ vec_capacity sources }
        ensures { self.new ≡ record self.old { lists = self.old.lists + 1 } }
    {
        self.lists.put(sources);
    }

    fn mark_ended(&mut self, client: u32, node: u32, outcome: Outcome)
        requires client { client < length self.old.clients }
        requires can { CanEnd self.old client node outcome }
        ensures { self.new ≡ record self.old {
          clients = slice_set self.old.clients client
              (with_ended (desk_at self.old.clients client) node outcome);
        } }
    {
        self.clients.finish(client, node, outcome, &self.graphs);
    }

    /// The device, the buffer and the list of a call come home, and its node has ended with this outcome.
    #[inline(always)]
    pub fn call_home(
        &mut self,
        client: u32,
        node: u32,
        buf: u32,
        at: Spot,
        coming: Coming<D>,
        outcome: Outcome,
    )
        requires client { client < length self.old.clients }
        requires device { (x : D) × IsAway self.old.devices at.device x }
        requires lease { IsLease self.old.pool (desk_at self.old.clients client).lease }
        requires buf { buf < length (desk_at self.old.clients client).lease }
        requires seat { (seat_of self.old.pool (desk_at self.old.clients client) buf).out ≡ true }
        requires long { length coming.buffer ≡ self.old.pool.unit }
        requires few { self.old.lists < 32 }
        requires empty { coming.sources.items ≡ [] }
        requires room { 2048 ≤ vec_capacity coming.sources }
        requires can { CanEnd self.old client node outcome }
        ensures { CameHome self.old client node buf at coming.disk coming.buffer outcome self.new }
    {
        let Coming {
            disk,
            buffer,
            sources,
        } = coming;
        self.device_home(at.device, disk);
        self.buffer_home(client, buf, buffer);
        self.list_home(sources);
        self.mark_ended(client, node, outcome);
    }

    /// A node that took nothing but its list along has ended with this outcome.
    pub fn plain_home(&mut self, client: u32, node: u32, sources: Vec<Source>, outcome: Outcome)
        requires client { client < length self.old.clients }
        requires few { self.old.lists < 32 }
        requires empty { sources.items ≡ [] }
        requires room { 2048 ≤ vec_capacity sources }
        requires can { CanEnd self.old client node outcome }
        ensures { CamePlain self.old client node outcome self.new }
    {
        self.list_home(sources);
        self.mark_ended(client, node, outcome);
    }
}

//! An event is traced, and an item replied.
ghost use Rattle.std.specs.Prelude.{◌≡◌, ◌<◌, true, length, slice_set};
ghost use Rattle.eng_world.specs.declared.item.Traced.TheVariants as event;
ghost use Rattle.eng_clients.specs.Desk.{desk_at, with_reply};
ghost use Rattle.eng_log.specs.Log.{noted};
ghost use Rattle.eng_state.specs.Moves.{id_of};

use crate::array::Array;
use blk_disk::Disk;
use blk_plain::OpId;
use eng_world::{Reply, Traced};
use lay_core::Layout;

impl<L: Layout, D: Disk> Array<L, D> {
    /// The name of the operation that the client serves now.
    pub fn id(&self, client: u32) -> OpId
        requires { client < length self.now.clients }
        ensures { result ≡ id_of self.now.clients client }
    {
        OpId {
            client,
            index: self.clients.served(client),
        }
    }

    /// The event is traced.
    pub fn note(&mut self, event: Traced)
        requires { self.old.log.keeps ≡ true → length self.old.log.trace < self.old.log.trace_room }
        ensures { self.new ≡ record self.old { log = noted self.old.log event } }
    {
        self.log.note(event);
    }

    /// A client's item is replied, and it has no lease any more.
    pub fn reply(&mut self, client: u32, reply: Reply)
        requires client { client < length self.old.clients }
        requires left { length (desk_at self.old.clients client).replies
            < length (desk_at self.old.clients client).items }
        ensures { self.new ≡ record self.old {
          clients = slice_set self.old.clients client
              (with_reply (desk_at self.old.clients client) reply);
        } }
    {
        self.clients.reply(client, reply);
    }
}

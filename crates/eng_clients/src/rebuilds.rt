//! The room for the rebuilds of a column.
ghost use Rattle.std.specs.Prelude.{◌≡◌, ◌<◌, ◌≤◌, ◌++◌, [], ◌∷◌, IfOk, length, slice_set};
ghost use Rattle.eng_clients.specs.Desk.{desk_at};
ghost use Rattle.eng_clients.specs.Listing.{rebuild};

use crate::client::{Client, bring_item};
use crate::clients::Clients;
use crate::memory::Memory;
use eng_one::with_bit;
use eng_world::Reply;
use item_list::Items;
use std::alloc::Global;
use std::marker::Model;
use std::mem;

/// The rebuilds that are listed so far, and room for so many, and for their replies.
#[derive(Drop)]
pub struct Rebuilds {
    room: u32,
    items: Items,
    replies: Vec<Reply>,
}

impl Model for Rebuilds {
    ghost use Rattle.std.specs.Prelude.{◌≡◌, ◌≤◌, [], length, vec_capacity};
    ghost use Rattle.eng_clients.specs.Listing.{Listing};

    ghost Value = { Listing };

    ghost view = { λ r. record { items = r.items.items; room = r.room } };

    ghost invariant = { λ r. record {
      items : (length r.items.items ≤ r.room) × (r.room ≤ r.items.room);
      replies : (r.replies.items ≡ []) × (r.room ≤ vec_capacity r.replies);
    } };
}

impl Rebuilds {
    /// Room for so many rebuilds. The only error is want of memory.
    pub fn open(alloc: Global, room: u32) -> Result<Rebuilds, Memory>
        ensures { IfOk result (λ rebuilds. rebuilds ≡ record { items = []; room = room }) }
    {
        Ok(Rebuilds {
            room,
            items: Items::with_capacity(alloc, room as usize)?,
            replies: Vec::with_capacity(alloc, room as usize)?,
        })
    }

    /// The rebuild of one more stripe is listed.
    pub fn push(&mut self, stripe: u32)
        requires { length self.old.items < self.old.room }
        ensures { self.new ≡ record self.old { items = self.old.items ++ rebuild stripe ∷ [] } }
    {
        self.items.push_rebuild(stripe);
    }

    /// A client without items gets what is listed, and the room with it.
    pub fn hand_over(&mut self, clients: &mut Clients, client: u32)
        requires client { client < length clients.old }
        requires items { (desk_at clients.old client).items ≡ [] }
        requires replies { (desk_at clients.old client).replies ≡ [] }
        ensures now { clients.new ≡ slice_set clients.old client
            (record (desk_at clients.old client) { items = self.old.items }) }
        ensures left { self.new ≡ record { items = []; room = 0 } }
    {
        hand_to(self, &mut clients.list[client as usize]);
        clients.busy = with_bit(clients.busy, client);
    }
}

// A client without items gets what is listed.
fn hand_to(rebuilds: &mut Rebuilds, client: &mut Client)
    requires items { client.old.items ≡ [] }
    requires replies { client.old.replies ≡ [] }
    ensures now { client.new ≡ record client.old { items = rebuilds.old.items } }
    ensures left { rebuilds.new ≡ record { items = []; room = 0 } }
{
    mem::swap(&mut rebuilds.items, &mut client.items);
    mem::swap(&mut rebuilds.replies, &mut client.replies);
    bring_item(&client.items, 0, &mut client.item);
    rebuilds.room = 0;
}

//! The room for all clients is taken, and their items are brought in.
ghost use Rattle.std.specs.Prelude.{◌≡◌, ◌≢◌, ◌<◌, ◌≤◌, ℕ, Some, None, length, slice_set, slice_index_or, IfOk};
ghost use Rattle.std.specs.Int.{bit_at};
ghost use Rattle.eng_clients.specs.Desk.{desk_at};
ghost use Rattle.eng_log.specs.Given.{items_at};
ghost use Rattle.eng_clients.specs.Fresh.{new_desk, AreRoomsFor};

use crate::client::{Client, ClientRoom};
use crate::clients::Clients;
use crate::memory::Memory;
use blk_plain::limits;
use eng_log::count_of;
use eng_one::with_bit;
use item_list::Items;
use std::alloc::Global;
use std::marker::Model;

// The most clients, the engine's own included.
const CLIENTS: u32 = limits::CLIENTS + 1;

/// Room for all clients by number. Contracts see for how many items each has room.
#[derive(Drop)]
pub struct ClientRooms {
    rooms: Vec<Option<ClientRoom>>,
    list: Vec<Client>,
}

impl Model for ClientRooms {
    ghost use Rattle.std.specs.Prelude.{◌≡◌, ◌≤◌, ℕ, List, Option, [], vec_capacity};

    ghost Value = { List (Option ℕ) };

    ghost view = { λ r. r.rooms.items };

    ghost invariant = { λ r. (r.list.items ≡ []) × (17 ≤ vec_capacity r.list) };
}

// The bits with one for this client, if it has an item left.
fn with_client(busy: u64, number: u32, client: &Client) -> u64
    requires { number < 64 }
    ensures others { (k : ℕ) → k ≢ number → bit_at result k ≡ bit_at busy k }
    ensures own { bit_at result number ≡ 0 → length client.now.replies ≡ length client.now.items }
{
    if client.is_replied() {
        busy
    } else {
        with_bit(busy, number)
    }
}

// The client of this number, in the room that was taken for it.
fn bring_one(rooms: &mut [Option<ClientRoom>], given: &mut [Items], number: u32) -> Client
    requires { (most : ℕ) × (slice_index_or rooms.old number None ≡ Some most)
        × (length (items_at given.old number) ≤ most) }
    ensures client { result ≡ new_desk (items_at given.old number) }
    ensures others { (k : ℕ) → k ≢ number → items_at given.new k ≡ items_at given.old k }
    ensures rooms { rooms.new ≡ slice_set rooms.old number None }
{
    match rooms[number as usize].take() {
        Some(room) => room.bring(given, number),
        None => unreachable!(),
    }
}

impl ClientRooms {
    /// The room that any of these items take. The only error is want of memory.
    pub fn open(alloc: Global, clients: &[Items]) -> Result<ClientRooms, Memory>
        requires { (c : ℕ) → length (items_at clients.now c) ≤ 65536 }
        ensures { IfOk result (AreRoomsFor clients.now) }
    {
        let mut rooms = Vec::with_capacity(alloc, CLIENTS as usize)?;
        let list = Vec::with_capacity(alloc, CLIENTS as usize)?;
        for client in 0..CLIENTS {
            let count = count_of(clients, client) as u32;
            rooms.push_reserved(Some(ClientRoom::open(alloc, count)?));
        }
        Ok(ClientRooms { rooms, list })
    }

    /// All clients, with these items. It takes no memory.
    pub fn bring(self, given: Vec<Items>) -> Clients
        requires { AreRoomsFor given.items self }
        ensures count { length result ≡ 17 }
        ensures each { (c : ℕ) → c < 17 → desk_at result c ≡ new_desk (items_at given.items c) }
    {
        let ClientRooms {
            mut rooms,
            mut list,
        } = self;
        let mut given = given;
        let mut busy = 0;
        for number in 0..CLIENTS {
            let client = bring_one(&mut rooms, &mut given, number);
            busy = with_client(busy, number, &client);
            list.push_reserved(client);
        }
        Clients { list, busy }
    }
}

//! The room for a client is taken, its items are brought in, and it is closed.
ghost use Rattle.std.specs.Prelude.{None, ◌≡◌, ◌≢◌, ◌≤◌, ◌+◌, ◌-◌, ◌++◌, ℕ, [], length, replicate, slice_get, IfOk, vec_capacity};
ghost use Rattle.eng_world.specs.declared.item.Reply.TheVariants as reply;
ghost use Rattle.eng_log.specs.Given.{items_at};
ghost use Rattle.eng_clients.specs.Replied.{told_of};
ghost use Rattle.eng_clients.specs.Fresh.{new_desk};

use crate::client::{Client, bring_item};
use crate::memory::Memory;
use crate::spots::Spots;
use crate::stage::Stage;
use blk_plain::limits;
use buf_pool::Lease;
use eng_cols::Loss;
use eng_one::Run;
use eng_world::{Item, Reply};
use graph_mean::{Graph, Task};
use item_list::Items;
use lay_core::StripeMap;
use std::alloc::Global;
use std::marker::Model;
use std::mem;

// So many replies are that the array was lost.
fn reply_lost(replies: &mut Vec<Reply>, count: usize)
    requires { length replies.old.items + count ≤ vec_capacity replies.old }
    ensures { replies.new.items ≡ replies.old.items ++ replicate count reply.Lost }
{
    for i in 0..count {
        replies.push_reserved(Reply::Lost);
    }
}

/// Room for a client of so many items. Contracts see how many.
///
/// It holds the parts of the client that take memory. A lease takes none and is long: the client gets it as it is made.
#[derive(Drop)]
pub struct ClientRoom {
    most: u32,
    // No items, for a client that isn't given any.
    none: Items,
    replies: Vec<Reply>,
    run: Run,
    graph: Graph,
    task: Task,
    map: StripeMap,
    missing: Vec<Option<u8>>,
    spots: Spots,
}

impl Model for ClientRoom {
    ghost use Rattle.std.specs.Prelude.{◌≡◌, ◌≤◌, ℕ, [], vec_capacity};
    ghost use Rattle.eng_clients.specs.Fresh.{new_desk};

    ghost Value = { ℕ };

    ghost view = { λ r. r.most };

    ghost invariant = { λ r. record {
      none : r.none.items ≡ [];
      replies : (r.replies.items ≡ []) × (r.most ≤ vec_capacity r.replies);
      run : r.run ≡ (new_desk []).run;
      graph : r.graph ≡ (new_desk []).graph;
      task : r.task ≡ (new_desk []).task;
      map : r.map ≡ (new_desk []).map;
      missing : (r.missing.items ≡ []) × (16 ≤ vec_capacity r.missing);
      spots : r.spots ≡ (new_desk []).spots;
    } };
}

// The items of the client of this number leave, if it has any, and none are left in their place.
fn take_items(given: &mut [Items], client: u32, none: Items) -> Items
    requires { none.items ≡ [] }
    ensures items { result.items ≡ items_at given.old client }
    ensures others { (k : ℕ) → k ≢ client → items_at given.new k ≡ items_at given.old k }
{
    let client = client as usize;
    if client < given.len() {
        mem::replace(&mut given[client], none)
    } else {
        none
    }
}

// The first of some items, if there is one.
fn first_item(items: &Items) -> Option<Item>
    ensures { result ≡ slice_get items.now.items 0 }
{
    let mut item = None;
    bring_item(items, 0, &mut item);
    item
}

impl ClientRoom {
    /// The room that any so many items take. The only error is want of memory.
    pub fn open(alloc: Global, most: u32) -> Result<ClientRoom, Memory>
        ensures { IfOk result (λ room. room ≡ most) }
    {
        Ok(ClientRoom {
            most,
            none: Items::new(alloc),
            replies: Vec::with_capacity(alloc, most as usize)?,
            run: Run::open(alloc)?,
            graph: Graph::with_room(alloc, limits::NODES, limits::BUFFERS, limits::EDGES)?,
            task: Task::with_room(alloc)?,
            map: StripeMap::with_room(alloc)?,
            missing: Vec::with_capacity(alloc, limits::TASK_STRIPES as usize)?,
            spots: Spots::open(alloc)?,
        })
    }

    /// The client of this number, with its items of those that are given, if it has any.
    pub fn bring(self, given: &mut [Items], number: u32) -> Client
        requires { length (items_at given.old number) ≤ self }
        ensures client { result ≡ new_desk (items_at given.old number) }
        ensures others { (k : ℕ) → k ≢ number → items_at given.new k ≡ items_at given.old k }
    {
        let ClientRoom {
            none,
            replies,
            run,
            graph,
            task,
            map,
            missing,
            spots,
            ..
        } = self;
        let items = take_items(given, number, none);
        let item = first_item(&items);
        Client {
            items,
            item,
            replies,
            stage: Stage::Nothing,
            run,
            graph,
            task,
            map,
            missing,
            lease: Lease::empty(),
            spots,
            by: None,
            file: None,
        }
    }
}

impl Client {
    /// Its items, and a reply for each that has one; once the array is lost, every other is replied so.
    pub fn close(self, lost: Option<Loss>) -> (Items, Vec<Reply>)
        ensures items { result.0.items ≡ self.items }
        ensures replies { result.1.items ≡ told_of lost self.items self.replies }
    {
        let Client {
            items,
            mut replies,
            ..
        } = self;
        if lost.is_some() {
            let missing = items.len() - replies.len();
            reply_lost(&mut replies, missing);
        }
        (items, replies)
    }
}

//! The list.
ghost use Rattle.std.specs.Prelude.{◌≡◌, ◌<◌, ◌≤◌, ◌++◌, [], ◌∷◌, Some, None, length, slice_get, IfOk, OnOk, OnErr};
ghost use Rattle.blk_plain.specs.declared.op.Op.TheVariants as op;
ghost use Rattle.eng_world.specs.declared.item.Item.TheVariants as item;
ghost use Rattle.item_list.specs.ItemList.{read_at};

use crate::slot::{Slot, keep, keep_write, put_item, read_span};
use blk_plain::{Patch, Patches, Pattern, Span};
use eng_world::Item;
use std::alloc::{AllocError, Global};
use std::marker::Model;

/// The items of a client, in their order. Contracts see their list.
///
/// An item by itself takes the room of eight patches, since it may be a write of eight spans. Few are, so a list keeps
/// patches apart, and a pattern that is longer than a byte too: what an item takes in the list is half a cache line.
#[derive(Drop)]
pub struct Items {
    slots: Vec<Slot>,
    // The spans of the writes of a pattern longer than a byte, with their patterns.
    longer: Vec<Patch>,
    // The patches of the writes of several spans.
    writes: Vec<Patches>,
}

impl Model for Items {
    ghost use Rattle.item_list.specs.ItemList.{ItemList};

    ghost Value = { ItemList };

    ghost use Rattle.std.specs.Prelude.{length, map, All, vec_capacity};
    ghost use Rattle.item_list.specs.Kept.{item_of, IsWithin};

    ghost view = { λ l. record {
      items = map (item_of l.longer.items l.writes.items) l.slots.items;
      room = vec_capacity l.slots;
    } };

    ghost invariant = { λ l.
        All (IsWithin (length l.longer.items) (length l.writes.items)) l.slots.items };
}

impl Items {
    /// No items. It takes no memory.
    pub fn new(alloc: Global) -> Items
        ensures { result.items ≡ [] }
    {
        Items {
            slots: Vec::new(alloc),
            longer: Vec::new(alloc),
            writes: Vec::new(alloc),
        }
    }

    /// No items yet, with room for so many rebuilds. The only error is want of memory.
    pub fn with_capacity(alloc: Global, count: usize) -> Result<Items, AllocError>
        ensures items { IfOk result (λ list. list.items ≡ []) }
        ensures room { IfOk result (λ list. count ≤ list.room) }
    {
        Ok(Items {
            slots: Vec::with_capacity(alloc, count)?,
            longer: Vec::new(alloc),
            writes: Vec::new(alloc),
        })
    }

    /// These items. The only error is want of memory.
    pub fn from_slice(alloc: Global, items: &[Item]) -> Result<Items, AllocError>
        ensures { IfOk result (λ list. list.items ≡ items.now) }
    {
        let mut list = Items::with_capacity(alloc, items.len())?;
        for item in items {
            list.push(*item)?;
        }
        Ok(list)
    }

    /// How many they are.
    pub fn len(&self) -> usize
        ensures { result ≡ length self.now.items }
    {
        self.slots.len()
    }

    /// The item at a place.
    pub fn get(&self, at: usize) -> Item
        requires { at < length self.now.items }
        ensures { slice_get self.now.items at ≡ Some result }
    {
        let mut item = Item::Fail { column: 0 };
        self.copy_to(at, &mut item);
        item
    }

    /// Puts the item at a place in the place of another, which takes fewer moves than to hand it out.
    pub fn copy_to(&self, at: usize, item: &mut Item)
        requires { at < length self.now.items }
        ensures { slice_get self.now.items at ≡ Some item.new }
    {
        put_item(&self.longer, &self.writes, &self.slots[at], item);
    }

    /// The span that the item at a place reads, where it is a read.
    pub fn read_span(&self, at: usize) -> Option<Span>
        requires { at < length self.now.items }
        ensures { result ≡ read_at self.now.items at }
    {
        read_span(&self.slots[at])
    }

    /// Puts an item behind the others. The only error is want of memory.
    pub fn push(&mut self, item: Item) -> Result<(), AllocError>
        ensures items { OnOk result (self.new.items ≡ self.old.items ++ item ∷ []) }
        ensures unchanged { OnErr result (self.new.items ≡ self.old.items) }
        ensures room { self.old.room ≤ self.new.room }
    {
        let slot = keep(&mut self.longer, &mut self.writes, &item)?;
        self.slots.push(slot)?;
        Ok(())
    }

    /// Puts a write of one span behind the others, as [`Items::push`] does: no item is built for it.
    pub fn push_write(
        &mut self,
        span: Span,
        pattern: &Pattern,
        graph: Option<u32>,
    ) -> Result<(), AllocError>
        ensures items { OnOk result (self.new.items
            ≡ self.old.items ++ item.Run (op.Write span pattern.now) graph ∷ []) }
        ensures unchanged { OnErr result (self.new.items ≡ self.old.items) }
        ensures room { self.old.room ≤ self.new.room }
    {
        let slot = keep_write(&mut self.longer, span, pattern, graph)?;
        self.slots.push(slot)?;
        Ok(())
    }

    /// Puts a read behind the others, as [`Items::push`] does: no item is built for it.
    pub fn push_read(&mut self, span: Span, graph: Option<u32>) -> Result<(), AllocError>
        ensures items { OnOk result (self.new.items
            ≡ self.old.items ++ item.Run (op.Read span) graph ∷ []) }
        ensures unchanged { OnErr result (self.new.items ≡ self.old.items) }
        ensures room { self.old.room ≤ self.new.room }
    {
        self.slots.push(Slot::Read {
            first: span.first,
            count: span.count,
            graph,
        })?;
        Ok(())
    }

    /// Puts the rebuild of a stripe, by the library's graph, behind the others. It takes no memory.
    pub fn push_rebuild(&mut self, stripe: u32)
        requires { length self.old.items < self.old.room }
        ensures items { self.new.items
            ≡ self.old.items ++ item.Run (op.Rebuild stripe) None ∷ [] }
        ensures room { self.new.room ≡ self.old.room }
    {
        self.slots.push_reserved(Slot::Rebuild {
            stripe,
            graph: None,
        });
    }
}

//! The items of a script, by client.
ghost use Rattle.std.specs.Prelude.{◌≡◌, ◌<◌, ◌++◌, [], ◌∷◌, length, map, IfOk, OnOk};
ghost use Rattle.blk_plain.specs.declared.op.Op.TheVariants as ops;
ghost use Rattle.eng_world.specs.declared.item.Item.TheVariants as asked;
ghost use Rattle.raid_script.specs.Asked.{scripted, seen, with_asked, with_request};
ghost use Rattle.raid_script.specs.Steps.{joined_in, seen_entry, seen_said};

use crate::entry::{Entry, Room, Said, item_from};
use crate::join::Join;
use blk_plain::{Pattern, Span, limits};
use eng_world::Item;
use item_list::Items;
use std::alloc::{AllocError, Global};
use std::marker::Model;

/// The items of each client, in order, and the join lines. Contracts see what each item asks for.
#[derive(Drop)]
pub struct Script {
    pub(crate) clients: Vec<Items>,
    pub(crate) joins: Vec<Join>,
}

impl Model for Script {
    ghost use Rattle.std.specs.Prelude.{map};
    ghost use Rattle.raid_script.specs.Asked.{Scripted, seen};

    ghost Value = { Scripted };

    ghost view = { λ s. record { clients = map (λ items. map seen items.items) s.clients.items; joins = s.joins.items } };
}

fn push_seen(items: &mut Items, item: Item) -> Result<(), AllocError>
    ensures { OnOk result (map seen items.new.items ≡ map seen items.old.items ++ seen item ∷ []) }
{
    items.push(item)?;
    Ok(())
}

fn push_write(
    items: &mut Items,
    span: Span,
    pattern: &Pattern,
    graph: Option<u32>,
) -> Result<(), AllocError>
    ensures { OnOk result (map seen items.new.items ≡ map seen items.old.items
        ++ seen (asked.Run (ops.Write span pattern.now) graph) ∷ []) }
{
    items.push_write(span, pattern, graph)?;
    Ok(())
}

fn push_read(items: &mut Items, span: Span, graph: Option<u32>) -> Result<(), AllocError>
    ensures { OnOk result (map seen items.new.items ≡ map seen items.old.items
        ++ seen (asked.Run (ops.Read span) graph) ∷ []) }
{
    items.push_read(span, graph)?;
    Ok(())
}

// Puts what a line says behind the others. For a write and a read no item is built, which has the room of eight patches.
fn push_said(items: &mut Items, said: Said, room: &Room) -> Result<(), AllocError>
    ensures { OnOk result (map seen items.new.items
        ≡ map seen items.old.items ++ seen_said room.now said ∷ []) }
{
    match said {
        Said::Write { span, graph } => push_write(items, span, &room.pattern, graph),
        Said::Read { span, graph } => push_read(items, span, graph),
        Said::Writes { .. } | Said::Sync { .. } | Said::Fail { .. } => {
            push_seen(items, item_from(said, room))
        }
    }
}

fn push_item(
    clients: &mut Vec<Items>,
    client: u32,
    said: Said,
    room: &Room,
) -> Result<(), AllocError>
    requires { client < length clients.old.items }
    ensures { OnOk result (map (λ items. map seen items.items) clients.new.items
        ≡ with_asked (map (λ items. map seen items.items) clients.old.items) client
        (seen_said room.now said)) }
{
    push_said(&mut clients[client as usize], said, room)?;
    Ok(())
}

fn push_join(joins: &mut Vec<Join>, join: Option<Join>) -> Result<(), AllocError>
    ensures { OnOk result (joins.new.items ≡ joins.old.items ++ joined_in join) }
{
    match join {
        Some(join) => {
            joins.push(join)?;
            Ok(())
        }
        None => Ok(()),
    }
}

impl Script {
    /// No client, and so no item.
    pub fn none(alloc: Global) -> Script
        ensures { result ≡ record { clients = []; joins = [] } }
    {
        Script {
            clients: Vec::new(alloc),
            joins: Vec::new(alloc),
        }
    }

    /// Sixteen clients, none of which has an item.
    pub(crate) fn empty(alloc: Global) -> Result<Script, AllocError>
        ensures { IfOk result (λ s. s ≡ scripted []) }
    {
        let mut clients = Vec::with_capacity(alloc, limits::CLIENTS as usize)?;
        for _ in 0..limits::CLIENTS {
            clients.push(Items::new(alloc))?;
        }
        Ok(Script {
            clients,
            joins: Vec::new(alloc),
        })
    }

    /// Puts an item behind those of its client, and its join line, if it has one, behind the others. The
    /// room has what it writes.
    pub(crate) fn push(&mut self, entry: Entry, room: &Room) -> Result<(), AllocError>
        requires { entry.client < length self.old.clients }
        ensures { OnOk result (self.new ≡ with_request self.old (seen_entry room.now entry)) }
    {
        push_item(&mut self.clients, entry.client, entry.said, room)?;
        push_join(&mut self.joins, entry.join)?;
        Ok(())
    }

    /// The join lines, in their order. The item of line j of them, counted from 0, names the graph
    /// whose number is that of the book's graphs, and j more. It takes no memory.
    pub fn joins(&self) -> &[Join]
        ensures { result.now ≡ self.now.joins }
    {
        &self.joins
    }

    /// The items of each client, by its number. It takes no memory.
    pub fn clients(self) -> Vec<Items>
        ensures { map (λ items. map seen items.items) result.items ≡ self.clients }
    {
        self.clients
    }

    /// The items of each client, and the join lines. It takes no memory.
    pub fn into_parts(self) -> (Vec<Items>, Vec<Join>)
        ensures clients { map (λ items. map seen items.items) result.0.items ≡ self.clients }
        ensures joins { result.1.items ≡ self.joins }
    {
        (self.clients, self.joins)
    }
}

//! One item as it is kept.
ghost use Rattle.std.specs.Prelude.{◌≡◌, ℕ, List, length, IfOk};
ghost use Rattle.blk_plain.specs.declared.op.Op.TheVariants as op;
ghost use Rattle.blk_plain.specs.declared.op.Patches.{Patches};
ghost use Rattle.eng_world.specs.declared.item.Item.TheVariants as items;
ghost use Rattle.item_list.specs.Kept.{one_byte, item_of, slot_read, IsWithin, KeepsAll};

use blk_plain::{Op, Patch, Patches, Pattern, Span};
use eng_world::Item;
use std::alloc::AllocError;

/// An item in the room of half a cache line: of a pattern longer than a byte, and of a write of several spans, it has the
/// place alone. A span stands in its two parts, so that nothing is left out between it and what follows.
#[derive(Clone, Copy)]
pub(crate) enum Slot {
    Fill {
        first: u64,
        count: u32,
        byte: u8,
        graph: Option<u32>,
    },
    Write {
        at: usize,
        graph: Option<u32>,
    },
    Writes {
        at: usize,
        graph: Option<u32>,
    },
    Read {
        first: u64,
        count: u32,
        graph: Option<u32>,
    },
    Rebuild {
        stripe: u32,
        graph: Option<u32>,
    },
    Sync {
        stripe: u32,
        graph: Option<u32>,
    },
    Fail {
        column: u32,
    },
}

// The pattern of a byte.
fn pattern_of(byte: u8) -> Pattern
    ensures { result ≡ one_byte byte }
{
    let mut bytes = [0u8; 32];
    bytes[0] = byte;
    Pattern { len: 1, bytes }
}

/// How a write of one span is kept. A pattern of a byte stands in the slot, a longer one behind the others.
pub(crate) fn keep_write(
    longer: &mut Vec<Patch>,
    span: Span,
    pattern: &Pattern,
    graph: Option<u32>,
) -> Result<Slot, AllocError>
    ensures item { (writes : List Patches) → IfOk result (λ slot.
        item_of longer.new.items writes slot ≡ items.Run (op.Write span pattern.now) graph) }
    ensures within { (count : ℕ) → IfOk result (λ slot.
        IsWithin (length longer.new.items) count slot) }
    ensures others { KeepsAll longer.old.items longer.new.items }
{
    if pattern.len == 1 {
        return Ok(Slot::Fill {
            first: span.first,
            count: span.count,
            byte: pattern.bytes[0],
            graph,
        });
    }
    let at = longer.len();
    longer.push(Patch {
        span,
        pattern: *pattern,
    })?;
    Ok(Slot::Write { at, graph })
}

// How an operation is kept. A longer pattern, and the patches of a write of several spans, are put behind the others.
fn keep_op(
    longer: &mut Vec<Patch>,
    writes: &mut Vec<Patches>,
    op: &Op,
    graph: Option<u32>,
) -> Result<Slot, AllocError>
    ensures item { IfOk result (λ slot.
        item_of longer.new.items writes.new.items slot ≡ items.Run op.now graph) }
    ensures within { IfOk result (λ slot.
        IsWithin (length longer.new.items) (length writes.new.items) slot) }
    ensures longer { KeepsAll longer.old.items longer.new.items }
    ensures writes { KeepsAll writes.old.items writes.new.items }
{
    match op {
        Op::Write { span, pattern } => keep_write(longer, *span, pattern, graph),
        Op::Writes { patches } => {
            let at = writes.len();
            writes.push(*patches)?;
            Ok(Slot::Writes { at, graph })
        }
        Op::Read { span } => Ok(Slot::Read {
            first: span.first,
            count: span.count,
            graph,
        }),
        Op::Rebuild { stripe } => Ok(Slot::Rebuild {
            stripe: *stripe,
            graph,
        }),
        Op::Sync { stripe } => Ok(Slot::Sync {
            stripe: *stripe,
            graph,
        }),
    }
}

/// How an item is kept. A longer pattern, and the patches of a write of several spans, are put behind the others.
pub(crate) fn keep(
    longer: &mut Vec<Patch>,
    writes: &mut Vec<Patches>,
    item: &Item,
) -> Result<Slot, AllocError>
    ensures item { IfOk result (λ slot.
        item_of longer.new.items writes.new.items slot ≡ item.now) }
    ensures within { IfOk result (λ slot.
        IsWithin (length longer.new.items) (length writes.new.items) slot) }
    ensures longer { KeepsAll longer.old.items longer.new.items }
    ensures writes { KeepsAll writes.old.items writes.new.items }
{
    match item {
        Item::Run { op, graph } => keep_op(longer, writes, op, *graph),
        Item::Fail { column } => Ok(Slot::Fail { column: *column }),
    }
}

// A write in the place of another item. Each kind has a function of its own, which puts the few bytes that it has where
// they belong: what is put by several arms of a match is built elsewhere first, with the room of eight patches.
fn put_write(item: &mut Item, span: Span, pattern: &Pattern, graph: Option<u32>)
    ensures { item.new ≡ items.Run (op.Write span pattern.now) graph }
{
    *item = Item::Run {
        op: Op::Write {
            span,
            pattern: *pattern,
        },
        graph,
    };
}

// A read in the place of another item.
fn put_read(item: &mut Item, span: Span, graph: Option<u32>)
    ensures { item.new ≡ items.Run (op.Read span) graph }
{
    *item = Item::Run {
        op: Op::Read { span },
        graph,
    };
}

// A write of several spans in the place of another item.
fn put_writes(item: &mut Item, patches: &Patches, graph: Option<u32>)
    ensures { item.new ≡ items.Run (op.Writes patches.now) graph }
{
    *item = Item::Run {
        op: Op::Writes { patches: *patches },
        graph,
    };
}

// A rebuild in the place of another item.
fn put_rebuild(item: &mut Item, stripe: u32, graph: Option<u32>)
    ensures { item.new ≡ items.Run (op.Rebuild stripe) graph }
{
    *item = Item::Run {
        op: Op::Rebuild { stripe },
        graph,
    };
}

// A sync in the place of another item.
fn put_sync(item: &mut Item, stripe: u32, graph: Option<u32>)
    ensures { item.new ≡ items.Run (op.Sync stripe) graph }
{
    *item = Item::Run {
        op: Op::Sync { stripe },
        graph,
    };
}

// The death of a column in the place of another item.
fn put_fail(item: &mut Item, column: u32)
    ensures { item.new ≡ items.Fail column }
{
    *item = Item::Fail { column };
}

/// The span that the item which is kept so reads, where it is a read.
pub(crate) fn read_span(slot: &Slot) -> Option<Span>
    ensures { result ≡ slot_read slot.now }
{
    match slot {
        Slot::Read { first, count, .. } => Some(Span {
            first: *first,
            count: *count,
        }),
        Slot::Fill { .. }
        | Slot::Write { .. }
        | Slot::Writes { .. }
        | Slot::Rebuild { .. }
        | Slot::Sync { .. }
        | Slot::Fail { .. } => None,
    }
}

/// Puts the item that is kept so in the place of another.
pub(crate) fn put_item(longer: &[Patch], writes: &[Patches], slot: &Slot, item: &mut Item)
    requires { IsWithin (length longer.now) (length writes.now) slot.now }
    ensures { item.new ≡ item_of longer.now writes.now slot.now }
{
    match slot {
        Slot::Fill {
            first,
            count,
            byte,
            graph,
        } => {
            let span = Span {
                first: *first,
                count: *count,
            };
            put_write(item, span, &pattern_of(*byte), *graph);
        }
        Slot::Write { at, graph } => {
            let patch = &longer[*at];
            put_write(item, patch.span, &patch.pattern, *graph);
        }
        Slot::Writes { at, graph } => put_writes(item, &writes[*at], *graph),
        Slot::Read {
            first,
            count,
            graph,
        } => {
            let span = Span {
                first: *first,
                count: *count,
            };
            put_read(item, span, *graph);
        }
        Slot::Rebuild { stripe, graph } => put_rebuild(item, *stripe, *graph),
        Slot::Sync { stripe, graph } => put_sync(item, *stripe, *graph),
        Slot::Fail { column } => put_fail(item, *column),
    }
}

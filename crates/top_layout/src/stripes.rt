//! Where the units of stripes stand.
ghost use Rattle.std.specs.Prelude.{◌≡◌, ◌<◌, ◌≤◌, is_ok, length, OnErr};
ghost use Rattle.blk_disk.specs.Disk.{Rose};
ghost use Rattle.lay_core.specs.Layout.{block_of, data_units};
ghost use Rattle.raid_bay.specs.Sink.{Puts};
ghost use Rattle.top_layout.specs.Lines.{check_text, data_line, other_line, spare_text, stripe_text, stripes_text, units_text};

use crate::tally::data_of;
use blk_disk::Failed;
use lay_core::{Layout, Place};
use put_line::Line;
use raid_bay::Sink;

// The first block of a data unit.
fn first_block<L: Layout>(layout: &L, stripe: u32, unit: u32) -> u64
    requires stripe { stripe < (L.shape layout.now).stripes }
    requires unit { unit < data_units (L.shape layout.now) }
    ensures { result ≡ block_of (L.shape layout.now) stripe unit 0 }
{
    let data = u64::from(layout.width() - layout.checks());
    let units = u64::from(stripe) * data + u64::from(unit);
    units * u64::from(layout.unit_sectors())
}

#[tactic(auto, unfolding(crate::specs::Lines::data_line))]
fn set_data(line: &mut Line, stripe: u32, unit: u32, place: Place, block: u64)
    ensures { line.new ≡ data_line stripe unit place block }
{
    line.clear();
    line.push(b"stripe ");
    line.push_number(stripe);
    line.push(b" unit ");
    line.push_number(unit);
    line.push(b" column ");
    line.push_number(place.column);
    line.push(b" row ");
    line.push_number(place.row);
    line.push(b" block ");
    line.push_number(block);
    line.push(b"\n");
}

#[tactic(auto, unfolding(crate::specs::Lines::other_line))]
fn set_other(line: &mut Line, stripe: u32, word: &[u8], place: Place)
    requires { length word.now ≤ 20 }
    ensures { line.new ≡ other_line stripe word.now place }
{
    line.clear();
    line.push(b"stripe ");
    line.push_number(stripe);
    line.push(word);
    line.push(b" column ");
    line.push_number(place.column);
    line.push(b" row ");
    line.push_number(place.row);
    line.push(b"\n");
}

// Prints a data unit.
fn put_data<L: Layout, K: Sink>(
    layout: &L,
    stripe: u32,
    unit: u32,
    out: &mut K,
) -> Result<(), Failed>
    requires stripe { stripe < (L.shape layout.now).stripes }
    requires unit { unit < data_units (L.shape layout.now) }
    ensures output { K.tells → Puts (is_ok result) (K.output out.old)
        (data_line stripe unit ((L.shape layout.now).place stripe unit)
        (block_of (L.shape layout.now) stripe unit 0)) (K.output out.new) }
    ensures later { K.faults out.old ≤ K.faults out.new }
    ensures cause { OnErr result (Rose (K.faults out.old) (K.faults out.new)) }
{
    let mut line = Line::new();
    let block = first_block(layout, stripe, unit);
    set_data(&mut line, stripe, unit, layout.place(stripe, unit), block);
    line.put(out)
}

// Prints the data units of a stripe.
fn put_units<L: Layout, K: Sink>(layout: &L, stripe: u32, out: &mut K) -> Result<(), Failed>
    requires stripe { stripe < (L.shape layout.now).stripes }
    ensures output { K.tells → Puts (is_ok result) (K.output out.old)
        (units_text (L.shape layout.now) stripe) (K.output out.new) }
    ensures later { K.faults out.old ≤ K.faults out.new }
    ensures cause { OnErr result (Rose (K.faults out.old) (K.faults out.new)) }
{
    for unit in 0..data_of(layout) {
        put_data(layout, stripe, unit, out)?;
    }
    Ok(())
}

// Prints a check unit, or a spare place.
fn put_other<K: Sink>(stripe: u32, word: &[u8], place: Place, out: &mut K) -> Result<(), Failed>
    requires { length word.now ≤ 20 }
    ensures output { K.tells → Puts (is_ok result) (K.output out.old)
        (other_line stripe word.now place) (K.output out.new) }
    ensures later { K.faults out.old ≤ K.faults out.new }
    ensures cause { OnErr result (Rose (K.faults out.old) (K.faults out.new)) }
{
    let mut line = Line::new();
    set_other(&mut line, stripe, word, place);
    line.put(out)
}

// Prints the check unit of a stripe, if it has one.
#[tactic(auto, unfolding(crate::specs::Lines::check_text))]
fn put_check<L: Layout, K: Sink>(layout: &L, stripe: u32, out: &mut K) -> Result<(), Failed>
    requires stripe { stripe < (L.shape layout.now).stripes }
    ensures output { K.tells → Puts (is_ok result) (K.output out.old)
        (check_text (L.shape layout.now) stripe) (K.output out.new) }
    ensures later { K.faults out.old ≤ K.faults out.new }
    ensures cause { OnErr result (Rose (K.faults out.old) (K.faults out.new)) }
{
    if layout.checks() == 0 {
        return Ok(());
    }
    let place = layout.place(stripe, data_of(layout));
    put_other(stripe, b" check", place, out)
}

// Prints the spare place of a stripe, if it has one.
#[tactic(auto, unfolding(crate::specs::Lines::spare_text))]
fn put_spare<K: Sink>(stripe: u32, spare: Option<Place>, out: &mut K) -> Result<(), Failed>
    ensures output { K.tells → Puts (is_ok result) (K.output out.old)
        (spare_text stripe spare) (K.output out.new) }
    ensures later { K.faults out.old ≤ K.faults out.new }
    ensures cause { OnErr result (Rose (K.faults out.old) (K.faults out.new)) }
{
    match spare {
        Some(place) => put_other(stripe, b" spare", place, out),
        None => Ok(()),
    }
}

// Prints a stripe.
fn put_stripe<L: Layout, K: Sink>(layout: &L, stripe: u32, out: &mut K) -> Result<(), Failed>
    requires stripe { stripe < (L.shape layout.now).stripes }
    ensures output { K.tells → Puts (is_ok result) (K.output out.old)
        (stripe_text (L.shape layout.now) stripe) (K.output out.new) }
    ensures later { K.faults out.old ≤ K.faults out.new }
    ensures cause { OnErr result (Rose (K.faults out.old) (K.faults out.new)) }
{
    put_units(layout, stripe, out)?;
    put_check(layout, stripe, out)?;
    put_spare(stripe, layout.spare_place(stripe), out)
}

/// Prints all stripes.
pub(crate) fn put_stripes<L: Layout, K: Sink>(layout: &L, out: &mut K) -> Result<(), Failed>
    ensures output { K.tells → Puts (is_ok result) (K.output out.old)
        (stripes_text (L.shape layout.now)) (K.output out.new) }
    ensures later { K.faults out.old ≤ K.faults out.new }
    ensures cause { OnErr result (Rose (K.faults out.old) (K.faults out.new)) }
{
    for stripe in 0..layout.stripes() {
        put_stripe(layout, stripe, out)?;
    }
    Ok(())
}

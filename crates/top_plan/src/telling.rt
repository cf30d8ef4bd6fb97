//! What is told of the items of a client.
ghost use Rattle.std.specs.Prelude.{◌≡◌, ◌≤◌, ◌++◌, ℕ, List, Some, length, slice_get, OnOk};
ghost use Rattle.eng_cols.specs.Cols.{IsFor};
ghost use Rattle.eng_cols.specs.Lost.{NotLost};
ghost use Rattle.eng_plan.specs.Asked.{HasBlocks};
ghost use Rattle.eng_world.specs.declared.item.Item.{Item as Asked};
ghost use Rattle.top_plan.specs.Texts.{AreToldOf, CanBeAsked, IsRunTold, IsToldOf, counts_line, graph_name, other_line, outside_word, plan_text};

use crate::counting::{read_sectors, sum_sectors, write_sectors};
use crate::judging::{Outside, judge_op};
use crate::planner::Planner;
use blk_plain::Op;
use eng_cols::Cols;
use eng_world::Item;
use graph_mean::{Graph, Memory};
use graph_text::print_graph;
use item_list::Items;
use lay_core::Layout;
use put_line::Line;
use std::alloc::Global;

/// An item of a client.
#[derive(Clone, Copy)]
pub(crate) struct Place {
    pub client: u32,
    pub number: usize,
}

#[tactic(auto, unfolding(crate::specs::Texts::graph_name))]
fn set_name(line: &mut Line, place: Place)
    ensures { line.new ≡ graph_name place.client place.number }
{
    line.clear();
    line.push(b"g");
    line.push_number(place.client);
    line.push(b"-");
    line.push_number(place.number);
}

#[tactic(auto, unfolding(crate::specs::Texts::counts_line))]
fn set_counts(line: &mut Line, place: Place, graph: &Graph)
    ensures { line.new ≡ counts_line place.client place.number graph.now.drawn }
{
    line.clear();
    line.push(b"# item ");
    line.push_number(place.client);
    line.push(b".");
    line.push_number(place.number);
    line.push(b" reads ");
    line.push_number(read_sectors(graph));
    line.push(b" sums ");
    line.push_number(sum_sectors(graph));
    line.push(b" writes ");
    line.push_number(write_sectors(graph));
    line.push(b"\n");
}

#[tactic(auto, unfolding(crate::specs::Texts::other_line))]
fn set_other(line: &mut Line, place: Place, word: &[u8])
    requires { length word.now ≤ 20 }
    ensures { line.new ≡ other_line place.client place.number word.now }
{
    line.clear();
    line.push(b"# item ");
    line.push_number(place.client);
    line.push(b".");
    line.push_number(place.number);
    line.push(word);
    line.push(b"\n");
}

fn outside_word(outside: Outside) -> &'static [u8]
    ensures word { result.now ≡ outside_word outside }
    ensures short { length result.now ≤ 20 }
{
    match outside {
        Outside::Range => b" refused R1",
        Outside::Long => b" refused R2",
    }
}

// Appends the line of an item that has no graph.
fn add_other(place: Place, word: &[u8], text: &mut Vec<u8>) -> Result<(), Memory>
    requires { length word.now ≤ 20 }
    ensures { OnOk result (text.new.items
        ≡ text.old.items ++ other_line place.client place.number word.now) }
{
    let mut line = Line::new();
    set_other(&mut line, place, word);
    text.extend_from_slice(line.bytes())?;
    Ok(())
}

// Appends a graph, behind its counts.
#[tactic(auto, unfolding(crate::specs::Texts::plan_text))]
fn add_plan(alloc: Global, place: Place, graph: &Graph, text: &mut Vec<u8>) -> Result<(), Memory>
    ensures { OnOk result (text.new.items
        ≡ text.old.items ++ plan_text place.client place.number graph.now.drawn) }
{
    let mut line = Line::new();
    set_counts(&mut line, place, graph);
    text.extend_from_slice(line.bytes())?;
    set_name(&mut line, place);
    match print_graph(alloc, line.bytes(), graph, text) {
        Ok(()) => Ok(()),
        Err(_) => Err(Memory),
    }
}

// Appends what is told of an operation.
fn add_run<L: Layout>(
    alloc: Global,
    planner: &mut Planner,
    layout: &L,
    cols: &Cols,
    place: Place,
    op: &Op,
    text: &mut Vec<u8>,
) -> Result<(), Memory>
    requires fit { IsFor (L.shape layout.now) cols.now }
    requires asked { HasBlocks op.now }
    requires kept { NotLost (L.shape layout.now) cols.now.states }
    ensures { OnOk result ((told : List ℕ)
        × IsRunTold (L.shape layout.now) cols.now.states place.client place.number op.now told
        × (text.new.items ≡ text.old.items ++ told)) }
{
    match judge_op(layout, op) {
        Ok(()) => {
            planner.plan(layout, cols, op);
            add_plan(alloc, place, planner.graph(), text)
        }
        Err(outside) => add_other(place, outside_word(outside), text),
    }
}

// Appends what is told of an item.
fn add_item<L: Layout>(
    alloc: Global,
    planner: &mut Planner,
    layout: &L,
    cols: &Cols,
    place: Place,
    item: &Item,
    text: &mut Vec<u8>,
) -> Result<(), Memory>
    requires fit { IsFor (L.shape layout.now) cols.now }
    requires asked { CanBeAsked item.now }
    requires kept { NotLost (L.shape layout.now) cols.now.states }
    ensures { OnOk result ((told : List ℕ)
        × IsToldOf (L.shape layout.now) cols.now.states place.client place.number item.now told
        × (text.new.items ≡ text.old.items ++ told)) }
{
    match item {
        Item::Run { op, .. } => add_run(alloc, planner, layout, cols, place, op, text),
        Item::Fail { .. } => add_other(place, b" fails a column", text),
    }
}

/// Appends what is told of each item of a client, in their order. The only error is want of memory.
pub fn tell_items<L: Layout>(
    alloc: Global,
    planner: &mut Planner,
    layout: &L,
    cols: &Cols,
    client: u32,
    items: &Items,
    text: &mut Vec<u8>,
) -> Result<(), Memory>
    requires fit { IsFor (L.shape layout.now) cols.now }
    requires asked { (n : ℕ) (i : Asked) → slice_get items.now.items n ≡ Some i → CanBeAsked i }
    requires kept { NotLost (L.shape layout.now) cols.now.states }
    ensures { OnOk result ((told : List ℕ)
        × AreToldOf (L.shape layout.now) cols.now.states client items.now.items
        (length items.now.items) told
        × (text.new.items ≡ text.old.items ++ told)) }
{
    for number in 0..items.len() {
        let place = Place { client, number };
        add_item(
            alloc,
            planner,
            layout,
            cols,
            place,
            &items.get(number),
            text,
        )?;
    }
    Ok(())
}

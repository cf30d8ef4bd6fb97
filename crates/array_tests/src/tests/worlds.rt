//! A small array, by hand: it meets the premises of the laws, and its first event is one.
ghost use Rattle.std.specs.Prelude.{◌≡◌, [], ◌∷◌};
ghost use Rattle.lay_core.specs.Layout.{IsLayout};
ghost use Rattle.eng_cols.specs.Contents.{InSync};
ghost use Rattle.eng_cols.specs.Samples.{rotated};
ghost use Rattle.eng_world.specs.declared.item.Event.TheVariants as may;
ghost use Rattle.eng_world.specs.declared.item.Traced.TheVariants as event;
ghost use Rattle.eng_world.specs.Planning.{Graphs, Promises};
ghost use Rattle.eng_world.specs.Pool.{HaveItems};
ghost use Rattle.eng_world.specs.Step.{IsOpening, Possible, EventsLead};
ghost use Rattle.eng_world.specs.Laws.{EncodesHistory};
ghost use Rattle.eng_world.specs.Small.{held, rows, three, opened, begun};

use super::judging::same;
use blk_plain::{Op, OpId, Span};
use eng_world::{
    Event, Item, Reply, Traced, idle_stripes_encode_the_history, what_is_made_was_possible,
};

fn a_small_array_opens()
    ensures layout { IsLayout rotated }
    ensures opening { IsOpening rotated opened }
    ensures in_sync { InSync rotated held three }
    ensures items { HaveItems opened 17 }
{}

fn its_first_operation_begins()
    ensures { (graphs : Graphs)
        → EventsLead rotated graphs opened (event.Begin (record { client = 0; index = 0 }) ∷ [])
        begun }
{}

fn its_first_operation_may_begin()
    ensures { (graphs : Graphs) → Possible rotated graphs (may.Begin 0) opened }
{
    what_is_made_was_possible();
}

fn idle_stripes_of_the_small_array_encode_its_history()
    ensures { (graphs : Graphs) → Promises graphs → EncodesHistory rotated rows begun }
{
    a_small_array_opens();
    its_first_operation_begins();
    idle_stripes_encode_the_history();
}

#[test]
fn items_replies_and_events_are_told_apart(rt: HostRuntime) {
    idle_stripes_of_the_small_array_encode_its_history();
    its_first_operation_may_begin();
    let id = OpId {
        client: 0,
        index: 0,
    };
    let op = Op::Read {
        span: Span { first: 0, count: 4 },
    };
    same(
        &rt,
        Item::Run { op, graph: None } == Item::Run { op, graph: Some(0) },
        false,
    );
    same(
        &rt,
        Item::Fail { column: 1 } == Item::Fail { column: 1 },
        true,
    );
    same(
        &rt,
        Reply::Undone { device: 1 } == Reply::Undone { device: 2 },
        false,
    );
    same(
        &rt,
        Event::Begin { client: 1 } == Event::Take { client: 1 },
        false,
    );
    same(
        &rt,
        Traced::Good { id, node: 1 } == Traced::Bad { id, node: 1 },
        false,
    );
}

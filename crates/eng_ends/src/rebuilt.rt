//! The end of a rebuild.
ghost use Rattle.std.specs.Prelude.{◌≡◌, ◌<◌, ◌≤◌, ℕ, Some, None, [], MatchOption, length, vec_capacity};
ghost use Rattle.graph_mean.specs.Graph.{kind_at};
ghost use Rattle.eng_cols.specs.Cols.{IsFor, IsKept};
ghost use Rattle.eng_cols.specs.Changes.{IsEnded};
ghost use Rattle.eng_cols.specs.Seats.{target};
ghost use Rattle.eng_cols.specs.declared.spot.Spot.{Spot};
ghost use Rattle.eng_world.specs.declared.item.Traced.TheVariants as event;
ghost use Rattle.eng_clients.specs.declared.stage.Stage.TheVariants as stage;
ghost use Rattle.eng_state.specs.Room.{HasRoom};
ghost use Rattle.eng_clients.specs.Desk.{desk_at, item_at};
ghost use Rattle.eng_log.specs.Log.{noted, counted, MayCount};
ghost use Rattle.eng_state.specs.Sound.{IsSound, IsOutOf};
ghost use Rattle.eng_state.specs.Moves.{id_of};
ghost use Rattle.eng_state.specs.EndsNode.{EndsNode};
ghost use Rattle.eng_clients.specs.Rebuilt.{IsRebuild, HasRebuilt, CountsRebuilt};
ghost use Rattle.eng_state.specs.Restored.{StripeEnds};

use crate::end::terminate;
use blk_disk::Disk;
use eng_job::Source;
use eng_state::Array;
use eng_world::{Reply, Traced};
use graph_mean::Node;
use lay_core::Layout;

// The unit that a client's operation has rebuilt.
fn rebuilt<L: Layout, D: Disk>(array: &Array<L, D>, client: u32) -> Option<u32>
    requires sound { IsSound L.Layout D.Disk array.now }
    requires runs { (desk_at array.now.clients client).stage ≡ stage.Runs }
    ensures { MatchOption result ((unit : ℕ) → ¬ (HasRebuilt (L.shape array.now.layout)
        array.now.cols.states (desk_at array.now.clients client) unit)) (HasRebuilt
        (L.shape array.now.layout) array.now.cols.states (desk_at array.now.clients client)) }
{
    let unit = array.clients.rewritten(client, &array.graphs)?;
    let stripe = array.clients.stripe(client, 0);
    match array.cols.target(&array.layout, stripe, unit) {
        Some(_) => Some(unit),
        None => None,
    }
}

// The stripe is done, its unit having been written at its target, and is counted.
fn stripe_done<L: Layout, D: Disk>(array: &mut Array<L, D>, stripe: u32, unit: u32)
    requires layout { IsFor (L.shape array.old.layout) array.old.cols }
    requires stripe { stripe < array.old.cols.stripes }
    requires unit { unit < (L.shape array.old.layout).width }
    requires target { (at : Spot)
        × (target (L.shape array.old.layout) array.old.cols.states stripe unit ≡ Some at) }
    requires room { MayCount array.old.log }
    ensures ended { IsEnded (L.shape array.old.layout) stripe unit array.old.cols.states
        array.new.cols.states }
    ensures columns { length array.new.cols.states ≡ length array.old.cols.states }
    ensures stripes { array.new.cols.stripes ≡ array.old.cols.stripes }
    ensures kept { IsKept array.new.cols }
    ensures rest { array.new
        ≡ record array.old { cols = array.new.cols; log = counted array.old.log } }
{
    array.cols.end(&array.layout, stripe, unit);
    array.log.count();
}

// Where the client's operation has rebuilt a unit, its stripe is done.
fn end_stripe<L: Layout, D: Disk>(array: &mut Array<L, D>, client: u32)
    requires sound { IsSound L.Layout D.Disk array.old }
    requires runs { (desk_at array.old.clients client).stage ≡ stage.Runs }
    requires room { MayCount array.old.log }
    ensures ends { StripeEnds (L.shape array.old.layout) array.old client array.new }
    ensures sound { IsSound L.Layout D.Disk array.new }
{
    match rebuilt(array, client) {
        Some(unit) => {
            let stripe = array.clients.stripe(client, 0);
            stripe_done(array, stripe, unit);
        }
        None => {}
    }
}

// The terminator of a rebuild ends good. Its stripe is done where its unit was written and its target is alive.
pub(crate) fn end_rebuild<L: Layout, D: Disk>(
    array: &mut Array<L, D>,
    client: u32,
    node: u32,
    sources: Vec<Source>,
)
    requires sound { IsSound L.Layout D.Disk array.old }
    requires place { HasRoom array.old.log }
    requires count { MayCount array.old.log }
    requires not_lost { array.old.lost ≡ None }
    requires out { IsOutOf (desk_at array.old.clients client) node }
    requires end { kind_at (desk_at array.old.clients client).run.graph node ≡ Node.Trm }
    requires rebuild { IsRebuild (item_at (desk_at array.old.clients client)) }
    requires empty { sources.items ≡ [] }
    requires room { 2048 ≤ vec_capacity sources }
    ensures home { EndsNode L.Layout D.Disk array.old client node
        (event.Good (id_of array.old.clients client) node) None array.new }
    ensures trace { CountsRebuilt
        (L.shape array.old.layout) array.old.cols.states (desk_at array.old.clients client)
        (noted array.old.log (event.Good (id_of array.old.clients client) node)) array.new.log }
{
    let id = array.id(client);
    end_stripe(array, client);
    terminate(array, client, node, sources, Reply::Done);
    array.note(Traced::Good { id, node });
}

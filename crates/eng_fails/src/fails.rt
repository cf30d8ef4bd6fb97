//! A column fails, and what fails with it.
ghost use Rattle.std.specs.Prelude.{◌≡◌, ◌<◌, ◌↔◌, ◌&&◌, not, Some, None, IsTrue, MatchOption, length, slice_get, slice_set};
ghost use Rattle.graph_mean.specs.Graph.{kind_at};
ghost use Rattle.graph_mean.specs.Steps.{reads, is_good};
ghost use Rattle.eng_one.specs.Control.{HasReadLeft, mark_of};
ghost use Rattle.eng_cols.specs.Cols.{Dead, IsFor};
ghost use Rattle.eng_cols.specs.Changes.{killed};
ghost use Rattle.eng_cols.specs.Lost.{IsLost, NotLost};
ghost use Rattle.eng_cols.specs.Seats.{is_available};
ghost use Rattle.eng_world.specs.Failing.{device_on};
ghost use Rattle.eng_world.specs.declared.item.Traced.TheVariants as event;
ghost use Rattle.eng_clients.specs.declared.stage.Stage.TheVariants as stage;
ghost use Rattle.eng_parts.specs.Shelf.{failing};
ghost use Rattle.eng_clients.specs.Desk.{desk_at, with_abandoned};
ghost use Rattle.eng_log.specs.Log.{noted};
ghost use Rattle.eng_state.specs.Room.{HasRoom};
ghost use Rattle.eng_state.specs.Sound.{IsSound};
ghost use Rattle.eng_state.specs.Out.{IsOut};
ghost use Rattle.eng_state.specs.Steps.{Follows};
ghost use Rattle.eng_state.specs.declared.array.Array.{Array};
ghost use Rattle.eng_state.specs.Failing.{dying, reads_dying, suffered, HaveSuffered, failed_after, FailedBy};

use blk_disk::Disk;
use blk_plain::limits;
use eng_job::Job;
use eng_state::Array;
use eng_world::Traced;
use graph_mean::{Node, Phase, Status};
use lay_core::Layout;

// How many clients there are, the engine's own included.
const CLIENTS: u32 = limits::CLIENTS + 1;

/// Whether the column is dead.
pub fn is_dead<L: Layout, D: Disk>(array: &Array<L, D>, column: u32) -> bool
    requires { column < length array.now.cols.states }
    ensures { IsTrue result ↔ (slice_get array.now.cols.states column ≡ Some Dead) }
{
    array.cols.is_dead(column)
}

// Whether the column's death makes a unit missing: one that stands, and lies or stands there.
fn dies<L: Layout, D: Disk>(array: &Array<L, D>, column: u32, stripe: u32, unit: u32) -> bool
    requires columns { IsFor (L.shape array.now.layout) array.now.cols }
    requires stripe { stripe < array.now.cols.stripes }
    requires unit { unit < (L.shape array.now.layout).width }
    ensures { result ≡ (is_available (L.shape array.now.layout) array.now.cols.states stripe unit
        && not (is_available (L.shape array.now.layout) (killed array.now.cols.states column) stripe
        unit)) }
{
    match array.cols.spot(&array.layout, stripe, unit) {
        None => false,
        Some(at) => at.column == column || array.layout.place(stripe, unit).column == column,
    }
}

// Whether a node still reads a unit that this makes missing.
fn node_reads<L: Layout, D: Disk>(array: &Array<L, D>, client: u32, node: u32, column: u32) -> bool
    requires sound { IsSound L.Layout D.Disk array.now }
    requires runs { (desk_at array.now.clients client).stage ≡ stage.Runs }
    requires node { node < length (desk_at array.now.clients client).run.graph.nodes }
    ensures { result ≡ (reads (desk_at array.now.clients client).run.graph
        (kind_at (desk_at array.now.clients client).run.graph node) (dying
        (L.shape array.now.layout) array.now.cols.states column (desk_at array.now.clients client))
        && not (is_good (mark_of (desk_at array.now.clients client).run node))) }
{
    match array.clients.node(client, node, &array.graphs) {
        Node::Rd { unit, buf } => {
            let stripe = array.stripe_of(client, buf);
            dies(array, column, stripe, unit) && array.clients.status(client, node) != Status::Good
        }
        Node::Wr { .. } | Node::Xor { .. } | Node::Cmt | Node::Trm => false,
    }
}

// Whether any does.
fn still_reads<L: Layout, D: Disk>(array: &Array<L, D>, client: u32, column: u32) -> bool
    requires sound { IsSound L.Layout D.Disk array.now }
    requires runs { (desk_at array.now.clients client).stage ≡ stage.Runs }
    ensures { result ≡ reads_dying (L.shape array.now.layout) array.now.cols.states column
        (desk_at array.now.clients client) }
{
    for node in 0..array.clients.nodes(client, &array.graphs) {
        if node_reads(array, client, node, column) {
            return true;
        }
    }
    false
}

fn abandon<L: Layout, D: Disk>(array: &mut Array<L, D>, client: u32, device: u32)
    requires client { client < length array.old.clients }
    requires before { (desk_at array.old.clients client).run.phase ≡ Phase.Before }
    requires read { HasReadLeft (desk_at array.old.clients client).run }
    ensures { array.new ≡ record array.old {
      clients = slice_set array.old.clients client
          (with_abandoned (desk_at array.old.clients client) device);
    } }
{
    array.clients.abandon(client, device);
}

// What becomes of one client as the column dies, whose device this is.
fn suffer<L: Layout, D: Disk>(array: &mut Array<L, D>, client: u32, column: u32, device: u32)
    requires sound { IsSound L.Layout D.Disk array.old }
    requires client { client < 17 }
    requires device { device ≡ device_on (slice_get array.old.cols.states column) column }
    ensures { array.new ≡ record array.old {
      clients = slice_set array.old.clients client (suffered (L.shape array.old.layout)
          array.old.cols.states column (desk_at array.old.clients client));
    } }
{
    array.clients.stands(client);
    if !array.clients.is_before(client) {
        return;
    }
    if still_reads(array, client, column) {
        abandon(array, client, device);
    }
}

fn suffer_all<L: Layout, D: Disk>(array: &mut Array<L, D>, column: u32, device: u32)
    requires sound { IsSound L.Layout D.Disk array.old }
    requires device { device ≡ device_on (slice_get array.old.cols.states column) column }
    ensures desks { HaveSuffered (L.shape array.old.layout) array.old.cols.states column
        array.old.clients array.new.clients }
    ensures rest { array.new ≡ record array.old { clients = array.new.clients } }
    ensures sound { IsSound L.Layout D.Disk array.new }
{
    for client in 0..CLIENTS {
        suffer(array, client, column, device);
    }
}

pub(crate) fn kill<L: Layout, D: Disk>(array: &mut Array<L, D>, column: u32)
    requires { column < length array.old.cols.states }
    ensures dead { array.new ≡ record array.old
        { cols = record array.old.cols { states = killed array.old.cols.states column } } }
{
    array.cols.kill(column);
}

pub(crate) fn device_fails<L: Layout, D: Disk>(array: &mut Array<L, D>, device: u32)
    requires { device < length array.old.devices.slots }
    ensures { array.new ≡ record array.old { devices = failing array.old.devices device } }
{
    array.devices.fail(device);
}

// The number of the column's device, or the column's own.
fn device_of<L: Layout, D: Disk>(array: &Array<L, D>, column: u32) -> u32
    requires { column < length array.now.cols.states }
    ensures { result ≡ device_on (slice_get array.now.cols.states column) column }
{
    match array.cols.device(column) {
        Some(device) => device,
        None => column,
    }
}

// The column's device has failed, if it has one.
fn blame<L: Layout, D: Disk>(array: &mut Array<L, D>, column: u32)
    requires sound { IsSound L.Layout D.Disk array.old }
    requires column { column < length array.old.cols.states }
    ensures { array.new
        ≡ record array.old {
          devices = record array.old.devices {
            failed = failed_after
                (slice_get array.old.cols.states column) array.old.devices.failed;
          };
        } }
{
    if let Some(device) = array.cols.device(column) {
        device_fails(array, device);
    }
}

// Whether the array is lost is asked anew.
fn judge<L: Layout, D: Disk>(array: &mut Array<L, D>)
    requires { IsFor (L.shape array.old.layout) array.old.cols }
    ensures lost { MatchOption
        array.new.lost (NotLost (L.shape array.old.layout) array.old.cols.states)
        (IsLost (L.shape array.old.layout) array.old.cols.states) }
    ensures rest { array.new ≡ record array.old { lost = array.new.lost } }
{
    array.lost = array.cols.lost(&array.layout);
}

/// The column fails, which isn't dead: its device has failed, and what still reads a unit that this makes missing is
/// abandoned.
pub fn fail_column<L: Layout, D: Disk>(array: &mut Array<L, D>, column: u32)
    requires sound { IsSound L.Layout D.Disk array.old }
    requires column { column < length array.old.cols.states }
    ensures { FailedBy L.Layout array.old column array.new }
{
    let device = device_of(array, column);
    suffer_all(array, column, device);
    blame(array, column);
    kill(array, column);
    judge(array);
}

/// The column fails, not by an item and not by a node. A dead one stays as it is.
pub fn fail<L: Layout, D: Disk>(array: &mut Array<L, D>, column: u32)
    requires sound { IsSound L.Layout D.Disk array.old }
    requires column { column < length array.old.cols.states }
    requires not_lost { array.old.lost ≡ None }
    requires room { HasRoom array.old.log }
    ensures dead { slice_get array.old.cols.states column ≡ Some Dead → array.new ≡ array.old }
    ensures step { (slice_get array.old.cols.states column ≡ Some Dead → ⊥)
        → Follows L.Layout D.Disk array.old (event.Fail column) array.new }
    ensures trace { (slice_get array.old.cols.states column ≡ Some Dead → ⊥)
        → array.new.log ≡ noted array.old.log (event.Fail column) }
    ensures failed { (slice_get array.old.cols.states column ≡ Some Dead → ⊥)
        → (mid : Array L D) × FailedBy L.Layout array.old column mid
        × (array.new ≡ record mid { log = noted mid.log (event.Fail column) }) }
    ensures sound { IsSound L.Layout D.Disk array.new }
    ensures stays { (job : Job D) → IsOut D.Disk L.Layout array.old job
        → IsOut D.Disk L.Layout array.new job }
{
    if is_dead(array, column) {
        return;
    }
    fail_column(array, column);
    array.note(Traced::Fail { column });
}

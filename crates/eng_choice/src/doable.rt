//! Whether an event can be done now.
ghost use Rattle.std.specs.Prelude.{◌≡◌, ◌↔◌, None, IsTrue};
ghost use Rattle.graph_mean.specs.Graph.{kind_at};
ghost use Rattle.graph_mean.specs.Steps.{IsCall};
ghost use Rattle.eng_clients.specs.Desk.{desk_at};
ghost use Rattle.eng_state.specs.Sound.{IsSound};
ghost use Rattle.eng_state.specs.Can.{place_now, CanFire, CanSkip};
ghost use Rattle.eng_state.specs.Beginning.{CanBegin};
ghost use Rattle.eng_state.specs.Serves.{Stands, CanBack};
ghost use Rattle.eng_state.specs.Doing.{CanDo, IsRipe, HasPlace, IsNowhere, AreHome};

use crate::takable::can_take;
use blk_disk::Disk;
use eng_clients::Stage;
use eng_cols::Spot;
use eng_state::Array;
use eng_world::Event;
use graph_mean::{Node, Phase};
use lay_core::Layout;

// Whether the client's next item can begin.
pub(crate) fn can_begin<L: Layout, D: Disk>(array: &Array<L, D>, client: u32) -> bool
    ensures { IsTrue result ↔ CanBegin array.now client }
{
    array.lost.is_none()
        && array.clients.stage(client) == Stage::Nothing
        && array.clients.has_item(client)
}

// Whether the client's operation is undone.
pub(crate) fn can_back<L: Layout, D: Disk>(array: &Array<L, D>, client: u32) -> bool
    requires { IsSound L.Layout D.Disk array.now }
    ensures { IsTrue result ↔ CanBack L.Layout array.now client }
{
    array.lost.is_none()
        && array.clients.stage(client) == Stage::Runs
        && array.clients.phase(client) == Phase::Undone
}

// Whether the client's operation runs and the node is ready.
fn is_ripe<L: Layout, D: Disk>(array: &Array<L, D>, client: u32, node: u32) -> bool
    requires { IsSound L.Layout D.Disk array.now }
    ensures { IsTrue result ↔ IsRipe (desk_at array.now.clients client) node }
{
    array.clients.stage(client) == Stage::Runs
        && node < array.clients.nodes(client, &array.graphs)
        && array.clients.ready(client, node)
}

// Whether the node's unit, if it has one, stands on a device that is at home. It stands there.
fn has_place<L: Layout, D: Disk>(
    array: &Array<L, D>,
    client: u32,
    node: u32,
    at: Option<Spot>,
) -> bool
    requires sound { IsSound L.Layout D.Disk array.now }
    requires ripe { IsRipe (desk_at array.now.clients client) node }
    requires at { at ≡ place_now L.Layout array.now client node }
    ensures { IsTrue result ↔ HasPlace L.Layout array.now client node }
{
    match at {
        Some(at) => array.devices.is_home(at.device),
        None => !is_call(array, client, node),
    }
}

// Whether the node is a read or a write.
fn is_call<L: Layout, D: Disk>(array: &Array<L, D>, client: u32, node: u32) -> bool
    requires sound { IsSound L.Layout D.Disk array.now }
    requires ripe { IsRipe (desk_at array.now.clients client) node }
    ensures { IsTrue result ↔ IsCall (kind_at (desk_at array.now.clients client).run.graph node) }
{
    match array.clients.node(client, node, &array.graphs) {
        Node::Rd { .. } | Node::Wr { .. } => true,
        Node::Xor { .. } | Node::Cmt | Node::Trm => false,
    }
}

// Whether the buffers that the node takes are at home.
fn has_buffers<L: Layout, D: Disk>(array: &Array<L, D>, client: u32, node: u32) -> bool
    requires sound { IsSound L.Layout D.Disk array.now }
    requires ripe { IsRipe (desk_at array.now.clients client) node }
    ensures { IsTrue result ↔ AreHome array.now client node }
{
    match array.clients.node(client, node, &array.graphs) {
        Node::Rd { buf, .. } => array.clients.is_home(client, buf, &array.pool),
        Node::Wr { buf, .. } => array.clients.is_home(client, buf, &array.pool),
        Node::Xor { to } => {
            array.clients.is_home(client, to, &array.pool)
                && array
                    .clients
                    .sources_home(client, node, &array.graphs, &array.pool)
        }
        Node::Cmt | Node::Trm => true,
    }
}

/// Whether a node that is ready, whose unit stands there, can be fired.
pub(crate) fn can_fire_at<L: Layout, D: Disk>(
    array: &Array<L, D>,
    client: u32,
    node: u32,
    at: Option<Spot>,
) -> bool
    requires sound { IsSound L.Layout D.Disk array.now }
    requires not_lost { array.now.lost ≡ None }
    requires ripe { IsRipe (desk_at array.now.clients client) node }
    requires at { at ≡ place_now L.Layout array.now client node }
    ensures { IsTrue result ↔ CanFire L.Layout array.now client node }
{
    array.lists.count() > 0
        && has_place(array, client, node, at)
        && has_buffers(array, client, node)
}

fn can_fire<L: Layout, D: Disk>(array: &Array<L, D>, client: u32, node: u32) -> bool
    requires { IsSound L.Layout D.Disk array.now }
    ensures { IsTrue result ↔ CanFire L.Layout array.now client node }
{
    array.lost.is_none()
        && is_ripe(array, client, node)
        && can_fire_at(array, client, node, array.place_of(client, node))
}

// Whether the node is a write whose unit, which stands there, stands nowhere.
fn is_nowhere<L: Layout, D: Disk>(
    array: &Array<L, D>,
    client: u32,
    node: u32,
    at: Option<Spot>,
) -> bool
    requires sound { IsSound L.Layout D.Disk array.now }
    requires ripe { IsRipe (desk_at array.now.clients client) node }
    requires at { at ≡ place_now L.Layout array.now client node }
    ensures { IsTrue result ↔ IsNowhere L.Layout array.now client node }
{
    match array.clients.node(client, node, &array.graphs) {
        Node::Wr { .. } => at.is_none(),
        Node::Rd { .. } | Node::Xor { .. } | Node::Cmt | Node::Trm => false,
    }
}

/// Whether a node that is ready, whose unit stands there, can be skipped.
pub(crate) fn can_skip_at<L: Layout, D: Disk>(
    array: &Array<L, D>,
    client: u32,
    node: u32,
    at: Option<Spot>,
) -> bool
    requires sound { IsSound L.Layout D.Disk array.now }
    requires not_lost { array.now.lost ≡ None }
    requires ripe { IsRipe (desk_at array.now.clients client) node }
    requires at { at ≡ place_now L.Layout array.now client node }
    ensures { IsTrue result ↔ CanSkip L.Layout array.now client node }
{
    array.clients.phase(client) == Phase::After && is_nowhere(array, client, node, at)
}

fn can_skip<L: Layout, D: Disk>(array: &Array<L, D>, client: u32, node: u32) -> bool
    requires { IsSound L.Layout D.Disk array.now }
    ensures { IsTrue result ↔ CanSkip L.Layout array.now client node }
{
    array.lost.is_none()
        && is_ripe(array, client, node)
        && can_skip_at(array, client, node, array.place_of(client, node))
}

/// Whether the event can be done now. Events of clients and nodes that aren't there can't.
pub fn can<L: Layout, D: Disk>(array: &Array<L, D>, event: Event) -> bool
    requires sound { IsSound L.Layout D.Disk array.now }
    requires stands { Stands L.Layout array.now }
    ensures { IsTrue result ↔ CanDo L.Layout array.now event }
{
    match event {
        Event::Begin { client } => can_begin(array, client),
        Event::Take { client } => can_take(array, client),
        Event::Fire { client, node } => can_fire(array, client, node),
        Event::Skip { client, node } => can_skip(array, client, node),
        Event::Back { client } => can_back(array, client),
    }
}

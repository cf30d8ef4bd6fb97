//! What each of them does then.
ghost use Rattle.std.specs.Prelude.{◌≡◌, ◌<◌, ◌↔◌, IsTrue, Some, length, slice_set};
ghost use Rattle.eng_one.specs.Control.{HasReadLeft, Stands, mark_of};
ghost use Rattle.eng_clients.specs.Desk.{Lends, desk_at, item_at, with_abandoned};

use crate::clients::Clients;
use crate::stage::Stage;
use eng_world::Item;
use graph_mean::{Graph, Phase, Status};

impl Clients {
    /// What is so of the client's run between any two calls. It does nothing.
    pub fn stands(&self, client: u32)
        requires { client < length self.now }
        ensures { Stands (desk_at self.now client).run }
    {
        self.list[client as usize].stands();
    }

    /// Whether the client runs an operation whose commit hasn't ended, and which isn't rolled back.
    pub fn is_before(&self, client: u32) -> bool
        requires { client < length self.now }
        ensures { IsTrue result ↔ (((desk_at self.now client).stage ≡ Stage.Runs)
            × ((desk_at self.now client).run.phase ≡ Phase.Before)) }
    {
        self.list[client as usize].is_before()
    }

    /// How many nodes the client's graph has.
    pub fn nodes(&self, client: u32, graphs: &[Graph]) -> u32
        requires client { client < length self.now }
        requires lends { Lends graphs.now (desk_at self.now client) }
        ensures { result ≡ length (desk_at self.now client).run.graph.nodes }
    {
        self.list[client as usize].nodes(graphs)
    }

    /// Where a node of its run stands.
    pub fn status(&self, client: u32, node: u32) -> Status
        requires client { client < length self.now }
        requires node { node < length (desk_at self.now client).run.graph.nodes }
        ensures { result ≡ mark_of (desk_at self.now client).run node }
    {
        self.list[client as usize].status(node)
    }

    /// Its operation is abandoned by this device.
    pub fn abandon(&mut self, client: u32, device: u32)
        requires client { client < length self.old }
        requires before { (desk_at self.old client).run.phase ≡ Phase.Before }
        requires read { HasReadLeft (desk_at self.old client).run }
        ensures { self.new
            ≡ slice_set self.old client (with_abandoned (desk_at self.old client) device) }
    {
        self.list[client as usize].abandon(device);
    }

    /// The item that the client serves now or next.
    pub fn next_item(&self, client: u32) -> &Item
        requires client { client < length self.now }
        requires left { length (desk_at self.now client).replies
            < length (desk_at self.now client).items }
        ensures { item_at (desk_at self.now client) ≡ Some result.now }
    {
        self.list[client as usize].next_item()
    }
}

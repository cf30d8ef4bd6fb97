//! What a client does as columns fail.
ghost use Rattle.std.specs.Prelude.{◌≡◌, ◌<◌, ◌↔◌, IsTrue, Some, length};
ghost use Rattle.eng_one.specs.Control.{HasReadLeft, Stands, mark_of};
ghost use Rattle.eng_clients.specs.Desk.{Lends, item_at, with_abandoned};

use crate::client::Client;
use crate::stage::Stage;
use eng_world::Item;
use graph_mean::{Graph, Phase, Status};

impl Client {
    /// What is so of its run between any two calls. It does nothing.
    pub fn stands(&self)
        ensures { Stands self.now.run }
    {
        self.run.stands();
    }

    /// Whether it runs an operation whose commit hasn't ended, and which isn't rolled back.
    pub fn is_before(&self) -> bool
        ensures { IsTrue result ↔
            ((self.now.stage ≡ Stage.Runs) × (self.now.run.phase ≡ Phase.Before)) }
    {
        match self.stage {
            Stage::Runs => self.run.phase() == Phase::Before,
            Stage::Nothing | Stage::Waits => false,
        }
    }

    /// How many nodes its graph has.
    pub fn nodes(&self, graphs: &[Graph]) -> u32
        requires { Lends graphs.now self.now }
        ensures { result ≡ length self.now.run.graph.nodes }
    {
        match self.file {
            None => self.graph.nodes(),
            Some(n) => graphs[n as usize].nodes(),
        }
    }

    /// Where a node of its run stands.
    pub fn status(&self, node: u32) -> Status
        requires { node < length self.now.run.graph.nodes }
        ensures { result ≡ mark_of self.now.run node }
    {
        self.run.status(node)
    }

    /// Its operation is abandoned by this device.
    pub fn abandon(&mut self, device: u32)
        requires before { self.old.run.phase ≡ Phase.Before }
        requires read { HasReadLeft self.old.run }
        ensures { self.new ≡ with_abandoned self.old device }
    {
        self.run.abandon();
        self.by = Some(device);
    }

    /// The item that it serves now or next.
    pub fn next_item(&self) -> &Item
        requires { length self.now.replies < length self.now.items }
        ensures { item_at self.now ≡ Some result.now }
    {
        match &self.item {
            Some(item) => item,
            None => unreachable!(),
        }
    }
}

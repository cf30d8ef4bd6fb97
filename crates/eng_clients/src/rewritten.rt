//! Which of a unit's sectors the nodes of an operation have written.
ghost use Rattle.std.specs.Prelude.{◌≡◌, ◌<◌, ◌≤◌, ◌↔◌, ℕ, IsTrue, MatchOption, true, false, length};
ghost use Rattle.graph_mean.specs.Ordered.{Accepted};
ghost use Rattle.graph_mean.specs.Task.{IsTask, is_rebuild_of, missing_of};
ghost use Rattle.eng_clients.specs.Desk.{Lends, desk_at};
ghost use Rattle.eng_clients.specs.Rebuilt.{WroteGood, WroteAll};

use crate::client::Client;
use crate::clients::Clients;
use graph_mean::{Graph, Kind, Node, Status};

impl Client {
    // The unit of which its operation is the rebuild.
    fn own_unit(&self) -> Option<u32>
        ensures { MatchOption result ((unit : ℕ) → is_rebuild_of self.now.task.kind unit ≡ false)
            (λ unit. self.now.task.kind ≡ Kind.Rebuild unit) }
    {
        match self.task.kind() {
            Kind::Rebuild { unit } => Some(unit),
            Kind::Read | Kind::Write | Kind::Sync => None,
        }
    }

    // Where the range ends that a node has written, if it has written this sector of the unit good.
    fn written_by(&self, node: u32, unit: u32, from: u32, graphs: &[Graph]) -> Option<u32>
        requires lends { Lends graphs.now self.now }
        requires node { node < length self.now.run.graph.nodes }
        requires task { IsTask self.now.task }
        requires accepted { Accepted self.now.run.graph self.now.task
            (missing_of self.now.missing) }
        ensures { MatchOption result (¬ (WroteGood self.now node unit from)) (λ end. (from < end)
            × ((o : ℕ) → from ≤ o → o < end → WroteGood self.now node unit o)) }
    {
        let Node::Wr { unit: own, buf } = self.node(node, graphs) else {
            return None;
        };
        let range = self.buf(buf, graphs);
        let end = range.from + range.count;
        if own == unit
            && range.stripe == 0
            && range.from <= from
            && from < end
            && self.status(node) == Status::Good
        {
            Some(end)
        } else {
            None
        }
    }

    // The same of all nodes.
    fn written_from(&self, unit: u32, from: u32, graphs: &[Graph]) -> Option<u32>
        requires lends { Lends graphs.now self.now }
        requires task { IsTask self.now.task }
        requires accepted { Accepted self.now.run.graph self.now.task
            (missing_of self.now.missing) }
        ensures { MatchOption result ((n : ℕ) → ¬ (WroteGood self.now n unit from)) (λ end.
            (from < end) × ((o : ℕ) → from ≤ o → o < end → (n : ℕ) × WroteGood self.now n unit o)) }
    {
        for node in 0..self.nodes(graphs) {
            if let Some(end) = self.written_by(node, unit, from, graphs) {
                return Some(end);
            }
        }
        None
    }

    // Whether its nodes have written all of the unit good.
    fn has_written(&self, unit: u32, graphs: &[Graph]) -> bool
        requires lends { Lends graphs.now self.now }
        requires task { IsTask self.now.task }
        requires accepted { Accepted self.now.run.graph self.now.task
            (missing_of self.now.missing) }
        ensures { IsTrue result ↔ WroteAll self.now unit }
    {
        let mut from = 0;
        while from < self.task.unit_sectors() {
            match self.written_from(unit, from, graphs) {
                Some(end) => from = end,
                None => return false,
            }
        }
        true
    }

    /// The unit of which its operation is the rebuild, if its nodes have written all of it good.
    pub fn rewritten(&self, graphs: &[Graph]) -> Option<u32>
        requires lends { Lends graphs.now self.now }
        requires task { IsTask self.now.task }
        requires accepted { Accepted self.now.run.graph self.now.task
            (missing_of self.now.missing) }
        ensures { MatchOption result
            ((unit : ℕ) → is_rebuild_of self.now.task.kind unit ≡ true → ¬ (WroteAll self.now unit))
            (λ unit. (is_rebuild_of self.now.task.kind unit ≡ true) × WroteAll self.now unit) }
    {
        let unit = self.own_unit()?;
        if self.has_written(unit, graphs) {
            Some(unit)
        } else {
            None
        }
    }
}

impl Clients {
    /// The unit of which the client's operation is the rebuild, if its nodes have written all of it good.
    pub fn rewritten(&self, client: u32, graphs: &[Graph]) -> Option<u32>
        requires client { client < length self.now }
        requires lends { Lends graphs.now (desk_at self.now client) }
        requires task { IsTask (desk_at self.now client).task }
        requires accepted { Accepted (desk_at self.now client).run.graph
            (desk_at self.now client).task (missing_of (desk_at self.now client).missing) }
        ensures { MatchOption result ((unit : ℕ) → is_rebuild_of (desk_at self.now client).task.kind
            unit ≡ true → ¬ (WroteAll (desk_at self.now client) unit))
            (λ unit. (is_rebuild_of (desk_at self.now client).task.kind unit ≡ true)
            × WroteAll (desk_at self.now client) unit) }
    {
        self.list[client as usize].rewritten(graphs)
    }
}

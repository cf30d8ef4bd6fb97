//! What the graphs of clients return.
ghost use Rattle.std.specs.Prelude.{◌≡◌, ◌<◌, length};
ghost use Rattle.graph_mean.specs.Graph.{ret_at};
ghost use Rattle.eng_clients.specs.Desk.{Lends, desk_at};

use crate::client::Client;
use crate::clients::Clients;
use graph_mean::{Graph, Ret};

impl Client {
    fn rets(&self, graphs: &[Graph]) -> u32
        requires { Lends graphs.now self.now }
        ensures { result ≡ length self.now.run.graph.rets }
    {
        match self.file {
            None => self.graph.rets(),
            Some(n) => graphs[n as usize].rets(),
        }
    }

    fn ret(&self, number: u32, graphs: &[Graph]) -> Ret
        requires lends { Lends graphs.now self.now }
        requires number { number < length self.now.run.graph.rets }
        ensures { result ≡ ret_at self.now.run.graph number }
    {
        match self.file {
            None => self.graph.ret(number),
            Some(n) => graphs[n as usize].ret(number),
        }
    }
}

impl Clients {
    /// How many returns the client's graph has.
    pub fn rets(&self, client: u32, graphs: &[Graph]) -> u32
        requires client { client < length self.now }
        requires lends { Lends graphs.now (desk_at self.now client) }
        ensures { result ≡ length (desk_at self.now client).run.graph.rets }
    {
        self.list[client as usize].rets(graphs)
    }

    /// Return n of it.
    pub fn ret(&self, client: u32, number: u32, graphs: &[Graph]) -> Ret
        requires client { client < length self.now }
        requires lends { Lends graphs.now (desk_at self.now client) }
        requires number { number < length (desk_at self.now client).run.graph.rets }
        ensures { result ≡ ret_at (desk_at self.now client).run.graph number }
    {
        self.list[client as usize].ret(number, graphs)
    }
}

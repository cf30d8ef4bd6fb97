//! Where the unit of a node stands.
ghost use Rattle.std.specs.Prelude.{◌≡◌, ◌<◌, length, slice_index};
ghost use Rattle.graph_mean.specs.Graph.{buf_at};
ghost use Rattle.eng_clients.specs.declared.stage.Stage.TheVariants as stage;
ghost use Rattle.eng_clients.specs.Desk.{desk_at};
ghost use Rattle.eng_state.specs.Sound.{IsSound};
ghost use Rattle.eng_state.specs.Can.{place_now};

use crate::array::Array;
use blk_disk::Disk;
use eng_cols::Spot;
use graph_mean::Node;
use lay_core::Layout;

impl<L: Layout, D: Disk> Array<L, D> {
    /// The stripe of a buffer of a running operation.
    pub fn stripe_of(&self, client: u32, buf: u32) -> u32
        requires sound { IsSound L.Layout D.Disk self.now }
        requires runs { (desk_at self.now.clients client).stage ≡ stage.Runs }
        requires buf { buf < length (desk_at self.now.clients client).run.graph.bufs }
        ensures stripe { result ≡ slice_index (desk_at self.now.clients client).map.stripes
            (buf_at (desk_at self.now.clients client).run.graph buf).stripe }
        ensures within { result < self.now.cols.stripes }
    {
        let buf = self.clients.buf(client, buf, &self.graphs);
        self.clients.stripe(client, buf.stripe)
    }

    /// Where the node's unit stands now, or the target of a rebuild's write. None for what makes no call.
    pub fn place_of(&self, client: u32, node: u32) -> Option<Spot>
        requires sound { IsSound L.Layout D.Disk self.now }
        requires runs { (desk_at self.now.clients client).stage ≡ stage.Runs }
        requires node { node < length (desk_at self.now.clients client).run.graph.nodes }
        ensures { result ≡ place_now L.Layout self.now client node }
    {
        match self.clients.node(client, node, &self.graphs) {
            Node::Rd { unit, buf } => {
                let stripe = self.stripe_of(client, buf);
                self.cols.spot(&self.layout, stripe, unit)
            }
            Node::Wr { unit, buf } => {
                let stripe = self.stripe_of(client, buf);
                if self.clients.rebuilds(client, unit) {
                    self.cols.target(&self.layout, stripe, unit)
                } else {
                    self.cols.spot(&self.layout, stripe, unit)
                }
            }
            Node::Xor { .. } | Node::Cmt | Node::Trm => None,
        }
    }
}

//! What a core is opened over, and what it hands back.
use blk_plain::OpId;
use eng_cols::{Column, Loss};
use eng_log::Regions;
use eng_world::{Reply, Traced};
use graph_mean::Graph;
use item_list::Items;
use sector_store::Store;

/// What a core is opened over: the devices by number, what each column is, the items of each client, the graphs that
/// items name, and whether the trace is kept.
#[derive(Drop)]
pub struct Setup<L, D> {
    pub layout: L,
    pub devices: Vec<Option<D>>,
    pub columns: Vec<Column>,
    pub clients: Vec<Items>,
    pub graphs: Vec<Graph>,
    pub trace: bool,
}

/// Why no core is opened.
#[derive(Clone, Copy, Debug, PartialEq, Eq)]
pub enum OpenFault {
    /// The array is lost by these columns, first at this stripe.
    Lost {
        first: u32,
        second: u32,
        stripe: u32,
    },
}

/// What a closed core hands back: devices and columns as they are, the items as handed in with a reply to each, the
/// history, the trace where it was kept, by what the array was lost, and how many stripes were rebuilt; and the sectors
/// that reads handed out, with the regions of each client's items, those of the array's own client last.
#[derive(Drop)]
pub struct Closed<L, D> {
    pub layout: L,
    pub devices: Vec<Option<D>>,
    pub columns: Vec<Column>,
    pub clients: Vec<Items>,
    pub replies: Vec<Vec<Reply>>,
    pub history: Vec<OpId>,
    pub trace: Vec<Traced>,
    pub lost: Option<Loss>,
    pub rebuilt: u32,
    pub sectors: Store,
    pub regions: Vec<Regions>,
}

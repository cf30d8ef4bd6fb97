//! The core's parts.
use buf_pool::Reserve;
use eng_clients::{Clients, Rebuilds};
use eng_cols::{Cols, Loss};
use eng_job::Lists;
use eng_log::Log;
use eng_parts::{Devices, Spare};
use graph_check::Scratch;
use graph_mean::Graph;
use stripe_lock::Locks;

/// The core of the engine. Each call is one event; what it holds between two is `IsSound`.
#[derive(Drop)]
pub struct Array<L, D> {
    pub layout: L,
    pub cols: Cols,
    pub devices: Devices<D>,
    pub pool: Reserve,
    pub locks: Locks,
    // A list for each job that isn't out.
    pub lists: Lists,
    pub clients: Clients,
    pub graphs: Vec<Graph>,
    // The room in which graphs of the file are checked.
    pub scratch: Scratch,
    pub log: Log,
    // What client 16 gets as a rebuild begins.
    pub rebuilds: Rebuilds,
    // The lists in which a closed core hands out what it has.
    pub spare: Spare,
    pub lost: Option<Loss>,
    // The client that `pick` tries first.
    pub next: u32,
}

//! What is served, as it is handed to the core.
ghost use Rattle.std.specs.Prelude.{◌≡◌, ◌≤◌, ◌++◌, ℕ, map, IfOk, IfErr, IfSome};
ghost use Rattle.top_words.specs.Asked.{AreNumbersInRange, profile_of};
ghost use Rattle.top_words.specs.Views.{action_seen};
ghost use Rattle.top_duty.specs.Steps.{clients_by, traces};
ghost use Rattle.top_duty.specs.Views.{drawn_by, items_seen, views_of};

use eng_array::{Setup, Start};
use eng_cols::{Cols, Column};
use graph_mean::Graph;
use graph_text::Book;
use item_list::Items;
use raid_conf::AnyLayout;
use raid_label::Label;
use raid_recon::Room;
use top_duty::{Ready, choose, traces};
use top_words::Action;

/// What is handed to the core, and what the labels of the array take, the newest of which this is, where it has any. How a
/// column is rebuilt, if one is, and whether the device onto which it goes has failed before. Whether a parity map is kept.
pub(crate) struct Work<D> {
    pub setup: Setup<AnyLayout, D>,
    pub newest: Option<Label>,
    pub judge: Cols,
    pub room: Room,
    pub start: Option<Start>,
    pub failed: bool,
    pub map: bool,
}

/// What is left where there is no memory for what is handed to the core.
pub(crate) struct Unserved<D> {
    pub columns: Vec<Column>,
    pub devices: Vec<Option<D>>,
}

// The graphs that items name: those of the file, and behind them those that are joined; none where there is no memory for
// the list.
fn graphs_of(book: Book, joined: Vec<Graph>) -> Option<Vec<Graph>>
    ensures { IfSome result
        (λ gs. views_of gs.items ≡ map (λ n. n.graph) book ++ views_of joined.items) }
{
    let mut graphs = book.into_graphs();
    for graph in joined {
        match graphs.push(graph) {
            Ok(()) => {}
            Err(_) => return None,
        }
    }
    Some(graphs)
}

/// Puts together what is handed to the core. The only refusal is want of memory.
pub(crate) fn work_of<D>(
    action: Action<'_>,
    book: Book,
    clients: Vec<Items>,
    ready: Ready,
    devices: Vec<Option<D>>,
) -> Result<Work<D>, Unserved<D>>
    ensures layout { IfOk result (λ w. w.setup.layout ≡ ready.layout) }
    ensures devices { IfOk result (λ w. w.setup.devices ≡ devices) }
    ensures columns { IfOk result (λ w. w.setup.columns ≡ ready.opened.columns) }
    ensures clients { IfOk result (λ w. (blocks : ℕ)
        → items_seen ready.drawn.items ≡ drawn_by (action_seen action.entry) blocks →
        items_seen w.setup.clients.items
        ≡ clients_by (action_seen action.entry) (items_seen clients.items) blocks) }
    ensures graphs { IfOk result (λ w. views_of w.setup.graphs.items ≡ map (λ n. n.graph) book
        ++ views_of ready.joined.items) }
    ensures trace { IfOk result (λ w. w.setup.trace ≡ traces (action_seen action.entry)) }
    ensures parts { IfOk result
        (λ w. (w.newest ≡ ready.opened.newest) × (w.judge ≡ ready.judge) × (w.room ≡ ready.room)) }
    ensures start { IfOk result (λ w. w.start ≡ ready.start) }
    ensures failed { IfOk result (λ w. w.failed ≡ ready.failed) }
    ensures map { IfOk result (λ w. w.map ≡ (profile_of (action_seen action.entry)).map) }
    ensures columns_left { IfErr result (λ u. u.columns ≡ ready.opened.columns) }
    ensures devices_left { IfErr result (λ u. u.devices ≡ devices) }
{
    let Ready {
        opened,
        layout,
        drawn,
        joined,
        judge,
        room,
        start,
        failed,
    } = ready;
    let Some(graphs) = graphs_of(book, joined) else {
        return Err(Unserved {
            columns: opened.columns,
            devices,
        });
    };
    let setup = Setup {
        layout,
        devices,
        columns: opened.columns,
        clients: choose(action, clients, drawn),
        graphs,
        trace: traces(action),
    };
    Ok(Work {
        setup,
        newest: opened.newest,
        judge,
        room,
        start,
        failed,
        map: action.profile().map,
    })
}

/// With how many workers clients are served, the caller among them; 0 where it does all.
pub(crate) fn workers_of(action: Action<'_>) -> u32
    requires { AreNumbersInRange (action_seen action) }
    ensures { result ≤ 16 }
{
    action.profile().workers
}

//! What is told of a run.
use blk_plain::OpId;
use eng_array::{Column, Loss, Reply, Traced};
use item_list::Items;
use sector_store::Store;

/// What became of the rebuild of a column.
#[derive(Clone, Copy, Debug, PartialEq, Eq)]
pub struct Line {
    /// The column.
    pub column: u32,
    /// The device that it was rebuilt onto; `None` is into the spare places.
    pub device: Option<u32>,
    /// How far it came.
    pub told: Told,
}

/// How far the rebuild of a column came.
#[derive(Clone, Copy, Debug, PartialEq, Eq)]
pub enum Told {
    /// Each of the column's stripes is rebuilt, so many.
    Done(u32),
    /// So many of them are, and the column is filling.
    Paused(u32),
    /// The column is dead.
    Stopped,
}

/// What is told of a run: of each client its items and their replies, the sectors of all items, the
/// history, the trace where it is kept, what became of a rebuild, if one was asked for, the columns in the end, and by
/// what the array was lost, if it was.
#[derive(Drop)]
pub struct Service {
    pub clients: Vec<Items>,
    pub replies: Vec<Vec<Reply>>,
    pub sectors: Store,
    pub history: Vec<OpId>,
    pub trace: Vec<Traced>,
    pub line: Option<Line>,
    pub columns: Vec<Column>,
    pub lost: Option<Loss>,
}

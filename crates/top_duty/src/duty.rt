//! What is to be done.
use eng_array::Start;
use eng_cols::Cols;
use graph_mean::Graph;
use item_list::Items;
use raid_conf::AnyLayout;
use raid_recon::Room;
use top_open::Opened;

/// An array that something may be done with. All memory that this takes, but for a core's, is held.
#[derive(Drop)]
pub struct Ready {
    /// Rows, columns and the newest label.
    pub opened: Opened,
    /// The layout over so many rows.
    pub layout: AnyLayout,
    /// The items that are drawn, of a sweep; else none.
    pub drawn: Vec<Items>,
    /// The graphs that are joined for the join lines of the script, in their order.
    pub joined: Vec<Graph>,
    /// Room for the columns, by which it is judged whether they make the array lost.
    pub judge: Cols,
    /// Room for the units of a stripe.
    pub room: Room,
    /// How a column is rebuilt, if one is.
    pub start: Option<Start>,
    /// Sector 0 of the device that is to be filled couldn't be read.
    pub failed: bool,
}

/// What is to be done.
#[derive(Drop)]
pub enum Duty {
    /// Something is done with an array.
    OnArray(Ready),
    /// An array is shown, which may be lost.
    Shows(Opened),
    /// The label of one device is shown.
    OneLabel,
    /// The configuration is printed.
    PrintConf,
}

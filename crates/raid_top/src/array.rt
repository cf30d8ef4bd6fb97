//! An array that something is done to without a core.
use raid_label::Label;
use raid_recon::SweepRoom;
use top_acts::{Maps, Renewal};
use top_close::Hand;

/// An array, with all the memory that something takes which is done to it without a core: its columns as they are opened;
/// columns to judge by, as many as its layout has; and room to sum up a stripe's units, with who is told how far a sweep is;
/// and its maps, where check units are renewed and it has labels.
#[derive(Drop)]
pub(crate) struct Array<L, P> {
    pub layout: L,
    pub hand: Hand,
    pub room: SweepRoom<P>,
    pub maps: Option<Maps>,
}

/// What is to be done to an array without a core.
#[derive(Clone, Copy)]
pub(crate) enum Order {
    /// Its stripes are tested.
    Check,
    /// Its check units are rewritten, and so are its labels, of which this is the newest, where it has any.
    Renew(Renewal, Option<Label>),
    /// This column is failed. The array has labels, of which this is the newest.
    Kill(u32, Label),
    /// Its devices get labels that say this besides column, counter and seats.
    Label(Label),
}

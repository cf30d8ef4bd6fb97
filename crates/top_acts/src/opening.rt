//! How a labelled array is begun with.
use crate::sweeping::Renewal;
use raid_map::Map;

/// By what it is announced that sectors of the array's rows are going to be written.
#[derive(Clone, Copy)]
pub enum Notice<'m> {
    /// By a round of labels that aren't clean.
    Round,
    /// By this map on each device in use, in the place of that round.
    Marks(&'m Map),
}

/// Which check units are rewritten before that.
#[derive(Clone, Copy)]
pub enum Sweeps<'m> {
    /// None.
    Nothing,
    /// Those of all stripes that lack no unit.
    Over(Renewal),
    /// Of the stripes that this map marks those that lack no unit and aren't in sync.
    Marked(&'m Map),
}

/// How a labelled array is begun with.
#[derive(Clone, Copy)]
pub struct Opening<'m> {
    pub notice: Notice<'m>,
    pub sweeps: Sweeps<'m>,
}

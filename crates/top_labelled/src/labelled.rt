//! What is handed in for a run over an array with labels, and what comes of it.
use eng_array::{Setup, Start};
use eng_cols::Cols;
use raid_label::Label;
use raid_recon::Room;
use top_close::Ending;
use top_run::Service;

/// An array with labels as it was opened, what clients ask of it, the memory that its beginning and
/// its end take, and what is to be rebuilt.
#[derive(Drop)]
pub struct Labelled<L, D> {
    pub setup: Setup<L, D>,
    /// The newest label of its devices. Its counter is at most 4,294,901,760.
    pub label: Label,
    /// It may hold any columns, as many as the layout has.
    pub judge: Cols,
    /// 1,024 bytes for each sector of a unit.
    pub room: Room,
    /// The rebuild that is to begin or to go on behind the beginning, where one is. Its column isn't
    /// dead yet.
    pub start: Option<Start>,
    /// Whether the device onto which that goes has failed in this call already. Then it doesn't
    /// begin, though its column dies.
    pub failed: bool,
    /// Whether a parity map is kept meanwhile, unless the newest label isn't clean.
    pub map: bool,
}

/// What came of it.
#[derive(Drop)]
pub enum Outcome {
    /// What was asked was served.
    Ran(Service),
    /// The array was lost before that. The column is dead that was to be rebuilt anew.
    Lost(Ending),
}

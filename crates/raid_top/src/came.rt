//! What came of a command.
use raid_conf::Conf;
use top_acts::Done;
use top_close::Ending;
use top_looks::Marked;
use top_open::{Front, Opened};
use top_run::Service;
use top_words::Action;

/// An array that is to be shown.
#[derive(Drop)]
pub(crate) struct Shown {
    /// How it was opened, and which columns have a device whose map could be read too.
    pub opened: Opened,
    /// The sizes of its devices.
    pub sizes: Vec<u64>,
    /// Their first sectors.
    pub fronts: Vec<Front>,
    /// What its parity map marks; none where no device in use has one.
    pub map: Option<Marked>,
}

/// What came of a command that wasn't refused.
#[derive(Drop)]
pub(crate) enum Came {
    /// Clients were served.
    Ran(Service),
    /// Something was done to the array without a core; or it was lost before clients were served.
    Did(Done, Ending),
    /// The array was opened, and is to be shown.
    Shows(Shown),
    /// The first sector of a device was read.
    ShowsLabel(Front),
    /// This is to be printed.
    Prints(Vec<u8>),
}

/// What came of a command, and what is kept of it.
#[derive(Drop)]
pub(crate) struct Ended<'a> {
    pub action: Action<'a>,
    pub conf: Conf,
    pub came: Came,
}

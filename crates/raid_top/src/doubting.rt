//! Who is told of a doubt about an array.
use raid_progress::Silent;
use top_duty::Duty;
use top_looks::{Doubt, doubt_of};

/// Is told of a doubt about an array that a call opened, as [`doubt_of`] has it, before anything is done with it. It answers
/// nothing, so nothing that is done or printed rests on it, and no contract speaks of it.
pub trait Doubts {
    fn doubt(&self, doubt: Doubt);
}

impl Doubts for Silent {
    fn doubt(&self, _doubt: Doubt) {}
}

/// Tells the doubt about the array, where one is opened and there is a doubt.
pub(crate) fn tell_doubt<P: Doubts>(duty: &Duty, progress: &P) {
    let opened = match duty {
        Duty::OnArray(ready) => &ready.opened,
        Duty::Shows(opened) => opened,
        Duty::OneLabel | Duty::PrintConf => return,
    };
    if let Some(doubt) = doubt_of(opened) {
        progress.doubt(doubt);
    }
}

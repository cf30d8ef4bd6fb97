//! Who is told how far a long call is.
//!
//! [`Progress`] is told numbers alone, and answers nothing. So nothing that is done, answered or
//! printed rests on it, and no contract speaks of it.
#![tactic(auto)]

/// Is told how far a long call is: by a sweep after each stripe, and while clients are served every
/// now and then, by each of their workers.
pub trait Progress {
    /// So many of all are done: stripes of a sweep, or items that have a reply, the stripes of a
    /// reconstruction among them. Workers tell beside one another, so numbers may come in another
    /// order than they were counted in.
    fn tell(&self, done: u64, all: u64);

    /// Nothing is told any more.
    fn end(&self);
}

impl<P: Progress> Progress for &P {
    fn tell(&self, done: u64, all: u64) {
        (**self).tell(done, all);
    }

    fn end(&self) {
        (**self).end();
    }
}

/// Is told, and does nothing.
#[derive(Clone, Copy)]
pub struct Silent;

impl Progress for Silent {
    fn tell(&self, _done: u64, _all: u64) {}

    fn end(&self) {}
}

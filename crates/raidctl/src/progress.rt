//! How far a long call is, on a terminal; and the doubt about its array, for the end.
ghost use Rattle.std.specs.Prelude.{◌≡◌};
ghost use Rattle.raidctl.specs.Progress.{is_time, seconds_left};

use raid_progress::Progress;
use raid_top::{Doubt, Doubts};
use std::io::IsTerminal;
use std::sync::atomic::{AtomicBool, AtomicU64, Ordering};
use std::time::{Duration, Instant};

// The clock is looked at each so many times that it is told.
const LOOK: u64 = 16;

// So many milliseconds from the start on the line is shown,
const FIRST: u64 = 1000;

// and drawn anew behind so many more.
const AGAIN: u64 = 200;

/// Shows in one line of standard error how many of all are done, and what is left of the time, where standard error is a
/// terminal. Nothing is shown in the first second, nor in the first fifth of one in which as many in all are told of; then
/// the line is drawn at most five times a second, until it is wiped out at the end. What standard error or the clock
/// refuses changes nothing.
#[derive(Drop)]
pub struct TerminalProgress<'a> {
    rt: &'a HostRuntime,
    // When it began; None where nothing is shown.
    start: Option<Instant>,
    // How often it was told.
    told: AtomicU64,
    // In milliseconds from the start: when the line was drawn last, 0 where it isn't there,
    drawn: AtomicU64,
    // and when it was first seen told of as many in all.
    began: AtomicU64,
    all: AtomicU64,
    // Whether the array is in doubt, and whether the newest label names a device for what it lacks.
    doubt: AtomicBool,
    named: AtomicBool,
}

impl<'a> TerminalProgress<'a> {
    /// Begins now.
    pub fn new(rt: &'a HostRuntime) -> TerminalProgress<'a> {
        let start = if rt.stderr().is_terminal() {
            Instant::now(rt).ok()
        } else {
            None
        };
        TerminalProgress {
            rt,
            start,
            told: AtomicU64::new(0),
            drawn: AtomicU64::new(0),
            began: AtomicU64::new(0),
            all: AtomicU64::new(0),
            doubt: AtomicBool::new(false),
            named: AtomicBool::new(false),
        }
    }

    /// The doubt about the array that was told last, if one was.
    pub fn doubted(&self) -> Option<Doubt> {
        if self.doubt.load(Ordering::SeqCst) {
            Some(Doubt {
                named: self.named.load(Ordering::SeqCst),
            })
        } else {
            None
        }
    }

    // How long as many in all have been told of, now that so many milliseconds have passed.
    fn since(&self, passed: u64, all: u64) -> u64 {
        if self.all.swap(all, Ordering::SeqCst) != all {
            self.began.store(passed, Ordering::SeqCst);
        }
        passed.saturating_sub(self.began.load(Ordering::SeqCst))
    }

    // Whether the line is due, and this thread's to draw.
    fn is_due(&self, passed: u64, since: u64) -> bool {
        let drawn = self.drawn.load(Ordering::SeqCst);
        is_time(passed, since, drawn)
            && self
                .drawn
                .compare_exchange(drawn, passed, Ordering::SeqCst, Ordering::SeqCst)
                .is_ok()
    }

    fn draw(&self, since: u64, done: u64, all: u64) {
        let left = seconds_left(since, done, all);
        let (minutes, seconds) = (left / 60, left % 60);
        match eprint!(self.rt; "\r{done} of {all} done, {minutes}:{seconds:02} left    ") {
            Ok(()) | Err(_) => {}
        }
    }
}

impl<'a> Progress for TerminalProgress<'a> {
    fn tell(&self, done: u64, all: u64) {
        let Some(start) = self.start else { return };
        if self.told.fetch_add(1, Ordering::SeqCst) % LOOK != 0 {
            return;
        }
        let Ok(passed) = start.elapsed(self.rt) else {
            return
        };
        let passed = milliseconds(passed);
        let since = self.since(passed, all);
        if self.is_due(passed, since) {
            self.draw(since, done, all);
        }
    }

    fn end(&self) {
        if self.drawn.swap(0, Ordering::SeqCst) == 0 {
            return;
        }
        match eprint!(self.rt; "\r{:72}\r", "") {
            Ok(()) | Err(_) => {}
        }
    }
}

impl<'a> Doubts for TerminalProgress<'a> {
    fn doubt(&self, doubt: Doubt) {
        self.named.store(doubt.named, Ordering::SeqCst);
        self.doubt.store(true, Ordering::SeqCst);
    }
}

fn milliseconds(passed: Duration) -> u64 {
    passed
        .as_secs()
        .saturating_mul(1000)
        .saturating_add(u64::from(passed.subsec_millis()))
}

// Whether a line is drawn so many milliseconds from the start, and so many since as many in all are told of, where the one
// before was drawn at that time, which is 0 where there is none. So early the pace says nothing of what is left.
#[tactic(auto, unfolding(crate::specs::Progress::is_time))]
fn is_time(passed: u64, since: u64, drawn: u64) -> bool
    ensures { result ≡ is_time passed since drawn }
{
    passed >= FIRST && since >= AGAIN && passed.saturating_sub(drawn) >= AGAIN
}

// What is left of the time, where it goes on as it went since then.
#[tactic(auto, unfolding(crate::specs::Progress::seconds_left))]
fn seconds_left(since: u64, done: u64, all: u64) -> u64
    ensures { result ≡ seconds_left since done all }
{
    if done == 0 {
        return 0;
    }
    since.saturating_mul(all.saturating_sub(done)) / done / 1000
}

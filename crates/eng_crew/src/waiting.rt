//! How a worker that isn't needed lets time pass before it looks again.
use eng_turn::{Turn, TurnRule};
use std::sync::Wait;
use std::thread::Parker;
use std::time::Duration;

// A worker sleeps so many microseconds, and twice as long each time that it found nothing again,
const SHORTEST: u32 = 25;

// up to so many,
const LONG: u32 = 200;

// or up to so many where the others were quick without it.
const LONGEST: u32 = 1_000;

// What a sleep takes beside its microseconds, roughly.
const WAKING: u32 = 60;

// The others are quick where a turn takes them so many microseconds or fewer.
const QUICK: u64 = 5;

// A worker steps back once it found the core taken so many times more often than free.
const CROWD: u32 = 6;

// A worker has the core to itself once nobody else had a turn between so many of its own in a row.
const KEPT: u32 = 32;

/// How a worker sleeps, how often it found others at the core, and for how long it found none.
#[derive(Drop)]
pub(crate) struct Pace {
    idle: Parker,
    lull: u32,
    crowd: u32,
    // How many turns of all there were by its last one, and how many of its own came one behind the other.
    turns: u64,
    kept: u32,
}

impl Pace {
    pub(crate) fn new() -> Pace {
        Pace {
            idle: Parker::new(),
            lull: SHORTEST,
            crowd: 0,
            turns: 0,
            kept: 0,
        }
    }

    /// It had something to do, and will sleep less.
    pub(crate) fn worked(&mut self) {
        self.lull = (self.lull / 2).max(SHORTEST);
    }

    /// It comes to a core that is taken or free: whether there are workers enough without it. Then it will sleep long.
    pub(crate) fn is_crowded(&mut self, taken: bool) -> bool {
        if !taken {
            self.crowd = self.crowd.saturating_sub(1);
            return false;
        }
        self.crowd = self.crowd.saturating_add(1);
        if self.crowd < CROWD {
            return false;
        }
        self.crowd = 0;
        self.lull = LONGEST;
        true
    }

    /// It is at the core after so many turns of all: whether it has had the core to itself for long.
    pub(crate) fn is_alone(&mut self, turns: u64) -> bool {
        let next = turns == self.turns.wrapping_add(1);
        self.turns = turns;
        self.kept = if next { self.kept.saturating_add(1) } else { 0 };
        self.kept >= KEPT
    }

    /// It had a turn in which nothing was done.
    pub(crate) fn looked(&mut self) {
        self.counted(1);
    }

    /// So many turns of its own were counted since it last came to the core.
    pub(crate) fn counted(&mut self, turns: u64) {
        self.turns = self.turns.wrapping_add(turns);
    }

    // Sleeps once. Nobody needs to wake the thread. Whether the others were quick meanwhile, by how many turns they had.
    fn sleep<R: TurnRule, W: Wait>(&mut self, rt: &W, turn: &Turn<R>) -> bool {
        let before = turn.turns();
        let micros = self.lull;
        self.idle
            .park_timeout(rt, Duration::from_micros(u64::from(micros)));
        let turns = turn.turns().wrapping_sub(before);
        let quick = turns >= u64::from(micros.saturating_add(WAKING)) / QUICK;
        let most = if quick { LONGEST } else { LONG };
        self.lull = micros.saturating_mul(2).min(most);
        quick
    }

    /// Sleeps while the others are quick, longer each time: then one more at the core costs more than it does.
    pub(crate) fn wait<R: TurnRule, W: Wait>(&mut self, rt: &W, turn: &Turn<R>) {
        for _ in rt.forever() {
            if !self.sleep(rt, turn) {
                return;
            }
        }
        unreachable!()
    }
}

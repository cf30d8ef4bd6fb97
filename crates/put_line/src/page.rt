//! A sink's output by pages.
ghost use Rattle.std.specs.Prelude.{◌≡◌, ◌≤◌, ◌<◌, ◌+◌, ◌++◌, [], true, length, take, vec_len, vec_capacity, is_ok, None, OnOk, OnErr, IfOk};
ghost use Rattle.std.specs.Option.{ForSome, ForNone};
ghost use Rattle.blk_disk.specs.Disk.{Rose};
ghost use Rattle.raid_bay.specs.Sink.{Puts};
ghost use Rattle.put_line.specs.Page.{whole, IsFront};

use blk_disk::Failed;
use raid_bay::Sink;
use std::alloc::{AllocError, Global};
use std::marker::{Brand, PhantomData};
use std::snapshot::Snapshot;

// How many bytes a page has room for.
const PAGE: usize = 65_536;

// What there was when a page was begun.
pub trait Start {
    ghost use Rattle.std.specs.Prelude.{ℕ, List};

    /// The name of the reference to the sink.
    ghost sink: { ℕ };

    /// What the sink had.
    ghost output: { List ℕ };

    /// Its count of faults.
    ghost faults: { ℕ };
}

impl Start for Brand {
    ghost use Rattle.std.specs.Prelude.{[]};

    ghost sink = { 0 };

    ghost output = { [] };

    ghost faults = { 0 };
}

/// Room for a page.
#[derive(Drop)]
pub struct Room {
    pub(crate) bytes: Vec<u8>,
    ghost empty: { bytes.items ≡ [] },
    ghost some: { 0 < vec_capacity bytes },
}

/// Takes room for a page of 65,536 bytes.
pub fn page_room(alloc: Global) -> Result<Room, AllocError> {
    let bytes = Vec::with_capacity(alloc, PAGE)?;
    Ok(Room { bytes })
}

// A sink that is lent. It is passed on whole, so that the reference keeps its name.
#[derive(Drop)]
pub(crate) struct Lent<'a, K> {
    pub(crate) sink: &'a mut K,
}

impl<K: Sink> Lent<'_, K> {
    fn seen(&self) -> Snapshot<K>
        ensures { result.value ≡ self.now.sink.now }
    {
        Snapshot::of(&*self.sink)
    }

    fn put(&mut self, bytes: &[u8]) -> Result<(), Failed>
        ensures output { K.tells → Puts (is_ok result) (K.output self.old.sink.now) bytes.now
            (K.output self.new.sink.now) }
        ensures later { K.faults self.old.sink.now ≤ K.faults self.new.sink.now }
        ensures cause { OnErr result
            (Rose (K.faults self.old.sink.now) (K.faults self.new.sink.now)) }
        ensures name { self.new.sink.ghost_name ≡ self.old.sink.ghost_name }
    {
        self.sink.put(bytes)
    }
}

/// A sink that gathers what is put into it, and gives another sink full pages of it.
#[derive(Drop)]
pub struct Page<'a, K: Sink, N: Start> {
    pub(crate) lent: Lent<'a, K>,
    pub(crate) bytes: Vec<u8>,
    // Where the sink has failed, this is as it was before that; then nothing more is given to it.
    pub(crate) before: Option<Snapshot<K>>,
    pub(crate) refused: u64,
    pub(crate) of: PhantomData<N>,
    ghost some: { 0 < vec_capacity bytes },
    ghost same: { lent.sink.ghost_name ≡ N.sink },
    ghost later: { N.faults ≤ K.faults lent.sink.now },
    ghost grown: { K.tells → length N.output ≤ length (K.output lent.sink.now) },
    ghost quiet: { ForNone before (refused ≡ 0) },
    ghost cause: { ForSome before (λ b. Rose N.faults (K.faults lent.sink.now)) },
    ghost front: { K.tells → ForSome before (λ b. take (length (K.output lent.sink.now)) (K.output b.value ++ bytes.items) ≡ K.output lent.sink.now) },
}

impl<'a, K: Sink, N: Start> Page<'a, K, N> {
    // Gives all that waits to the sink.
    fn give(&mut self) -> Result<(), Failed>
        requires { self.old.before ≡ None }
        ensures output { K.tells
            → whole K.output self.new.lent.sink.now self.new.bytes.items self.new.before
            ≡ whole K.output self.old.lent.sink.now self.old.bytes.items self.old.before }
        ensures ok { OnOk result ((self.new.before ≡ None) × (self.new.bytes.items ≡ [])) }
        ensures later { K.faults self.old.lent.sink.now ≤ K.faults self.new.lent.sink.now }
        ensures err { OnErr result
            (Rose (K.faults self.old.lent.sink.now) (K.faults self.new.lent.sink.now)) }
        ensures refused { self.new.refused ≡ self.old.refused }
    {
        let before = self.lent.seen();
        match self.lent.put(&self.bytes) {
            Ok(()) => {
                self.bytes.clear();
                Ok(())
            }
            Err(Failed) => {
                self.before = Some(before);
                Err(Failed)
            }
        }
    }

    // Where no room is left, gives all that waits to the sink. Where it is Ok there is room.
    fn make_room(&mut self) -> Result<(), Failed>
        ensures output { K.tells
            → whole K.output self.new.lent.sink.now self.new.bytes.items self.new.before
            ≡ whole K.output self.old.lent.sink.now self.old.bytes.items self.old.before }
        ensures ok { OnOk result
            ((self.new.before ≡ None) × (vec_len self.new.bytes < vec_capacity self.new.bytes)) }
        ensures later { K.faults self.old.lent.sink.now + self.old.refused
            ≤ K.faults self.new.lent.sink.now + self.new.refused }
        ensures err { OnErr result (Rose (K.faults self.old.lent.sink.now + self.old.refused)
            (K.faults self.new.lent.sink.now + self.new.refused)) }
    {
        if self.before.is_some() {
            self.refused = self.refused.saturating_add(1);
            return Err(Failed);
        }
        if self.bytes.len() < self.bytes.capacity() {
            return Ok(());
        }
        self.give()
    }

    // Takes as much as there is room for, and answers how much.
    fn gather(&mut self, bytes: &[u8]) -> usize
        requires before { self.old.before ≡ None }
        requires room { vec_len self.old.bytes < vec_capacity self.old.bytes }
        requires some { 0 < length bytes.now }
        ensures output { whole K.output self.new.lent.sink.now self.new.bytes.items self.new.before
            ≡ whole K.output self.old.lent.sink.now self.old.bytes.items self.old.before
            ++ take result bytes.now }
        ensures some { 0 < result }
        ensures within { result ≤ length bytes.now }
        ensures faults { K.faults self.new.lent.sink.now ≡ K.faults self.old.lent.sink.now }
        ensures refused { self.new.refused ≡ self.old.refused }
    {
        let fits = bytes.len().min(self.bytes.capacity() - self.bytes.len());
        match self.bytes.extend_from_slice(&bytes[..fits]) {
            Ok(()) => {}
            Err(_) => unreachable!(),
        }
        fits
    }

    /// Gives what waits to the sink, after a printing with this end. Failed where the printing or this failed: the sink
    /// has a front of all that was put into the page, and its count of faults rose. Else it has all.
    pub fn finish(&mut self, printed: Result<(), Failed>) -> Result<(), Failed>
        requires cause { OnErr printed
            (Rose N.faults (K.faults self.old.lent.sink.now + self.old.refused)) }
        ensures name { self.new.lent.sink.ghost_name ≡ N.sink }
        ensures printed { OnOk result (is_ok printed ≡ true) }
        ensures ok { K.tells → OnOk result (K.output self.new.lent.sink.now
            ≡ whole K.output self.old.lent.sink.now self.old.bytes.items self.old.before) }
        ensures err { K.tells
            → OnErr result (IsFront N.output (whole K.output self.old.lent.sink.now
            self.old.bytes.items self.old.before) (K.output self.new.lent.sink.now)) }
        ensures later { N.faults ≤ K.faults self.new.lent.sink.now }
        ensures cause { OnErr result (Rose N.faults (K.faults self.new.lent.sink.now)) }
    {
        if printed.is_err() || self.before.is_some() {
            return Err(Failed);
        }
        self.give()
    }
}

impl<K: Sink, N: Start> Sink for Page<'_, K, N> {
    ghost tells = { K.tells };

    ghost output = { λ p. whole K.output p.lent.sink.now p.bytes.items p.before };

    ghost faults = { λ p. K.faults p.lent.sink.now + p.refused };

    fn put(&mut self, bytes: &[u8]) -> Result<(), Failed> {
        let mut rest = bytes;
        while !rest.is_empty() {
            match self.make_room() {
                Ok(()) => {}
                Err(Failed) => return Err(Failed),
            }
            let fits = self.gather(rest);
            rest = &rest[fits..];
        }
        Ok(())
    }
}

//! Bytes that are zero until they are written.
ghost use Rattle.std.specs.Prelude.{◌≡◌, ◌≤◌, ◌+◌, ◌-◌, ◌++◌, IfOk, length, replicate, take, drop, vec_len, vec_capacity};

use crate::buffer::Memory;
use std::alloc::Global;
use std::marker::Model;

// So many bytes are reserved beyond those that are wanted. Buffers of a multiple of 4 KiB would else begin a few bytes apart
// but for such multiples; and many processors tell addresses by their last twelve bits at first, so that a load from one
// buffer waits for a store into another.
const APART: usize = 1024;

/// Bytes that are all zero at first. Contracts see the list of them.
///
/// Who reserves memory for the most that a run may need often uses little of it. So there is room for
/// all bytes from the start, which a system gives as it is touched, but those behind the last that was
/// put aren't written before all are wanted, and what is put there is written once.
#[derive(Drop)]
pub struct Zeroed {
    written: Vec<u8>,
    count: usize,
}

impl Model for Zeroed {
    ghost use Rattle.std.specs.Prelude.{◌++◌, ◌≤◌, ◌-◌, List, ℕ, replicate, vec_len, vec_capacity};

    ghost Value = { List ℕ };

    ghost view = { λ z. z.written.items ++ replicate (z.count - vec_len z.written) 0 };

    ghost invariant = { λ z. (vec_len z.written ≤ z.count) × (z.count ≤ vec_capacity z.written) };
}

impl Zeroed {
    /// So many zero bytes. The only error is want of memory.
    pub fn open(alloc: Global, count: usize) -> Result<Zeroed, Memory>
        ensures { IfOk result (λ bytes. bytes ≡ replicate count 0) }
    {
        let written = Vec::with_capacity(alloc, count.saturating_add(APART))?;
        Ok(Zeroed { written, count })
    }

    /// These bytes, all of which are written.
    pub fn of(written: Vec<u8>) -> Zeroed
        ensures { result ≡ written.items }
    {
        let count = written.len();
        Zeroed { written, count }
    }

    /// How many they are.
    pub fn len(&self) -> usize
        ensures { result ≡ length self.now }
    {
        self.count
    }

    /// Puts these bytes in the place of as many from a place on.
    pub fn put(&mut self, at: usize, from: &[u8])
        requires { at + length from.now ≤ length self.old }
        ensures { self.new ≡ take at self.old ++ from.now ++ drop (at + length from.now) self.old }
    {
        reach(&mut self.written, at);
        lay(&mut self.written, at, from);
    }

    /// All of them, written.
    pub fn into_vec(self) -> Vec<u8>
        ensures { result.items ≡ self }
    {
        let mut bytes = self.written;
        let filled = bytes.resize(self.count, 0).is_ok();
        prove!(filled);
        bytes
    }
}

// So many bytes at least: where there are fewer, zeros stand behind them.
fn reach(written: &mut Vec<u8>, count: usize)
    requires { count ≤ vec_capacity written.old }
    ensures items { written.new.items ≡ written.old.items
        ++ replicate (count - vec_len written.old) 0 }
    ensures room { vec_capacity written.old ≤ vec_capacity written.new }
{
    if written.len() < count {
        let filled = written.resize(count, 0).is_ok();
        prove!(filled);
    }
}

// Puts these bytes in the place of as many from a place on, and behind the last those for which there are none yet.
fn lay(written: &mut Vec<u8>, at: usize, from: &[u8])
    requires at { at ≤ vec_len written.old }
    requires room { at + length from.now ≤ vec_capacity written.old }
    ensures items { written.new.items ≡ take at written.old.items ++ from.now
        ++ drop (at + length from.now) written.old.items }
    ensures room { vec_capacity written.old ≤ vec_capacity written.new }
{
    let over = from.len().min(written.len() - at);
    overwrite(written.as_mut_slice(), at, &from[..over]);
    let laid = written.extend_from_slice(&from[over..]).is_ok();
    prove!(laid);
}

// Puts these bytes in the place of as many from a place on.
fn overwrite(bytes: &mut [u8], at: usize, from: &[u8])
    requires { at + length from.now ≤ length bytes.old }
    ensures { bytes.new ≡ take at bytes.old ++ from.now ++ drop (at + length from.now) bytes.old }
{
    let part = &mut bytes[at..at + from.len()];
    part.copy_from_slice(from);
}

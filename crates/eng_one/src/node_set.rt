//! A set of nodes, in which the first from a number on is found without a look at those that aren't in it.
ghost use Rattle.std.specs.Prelude.{◌≡◌, ℕ, ◌<◌, ◌+◌, ◌*◌, ◌==◌, MatchOption, if◌then◌else◌, true, false};
ghost use Rattle.eng_one.specs.Bits.{has, NoneFrom, IsFirstFrom};

use crate::bits::{first_bit, with_bit, without_bit};
use std::marker::Model;

// Nodes below 2,048.
#[derive(Drop)]
pub(crate) struct NodeSet {
    // A bit for each node, 64 a word.
    words: [u64; 32],
    // A bit for each word that isn't 0.
    blocks: u64,
}

impl Model for NodeSet {
    ghost use Rattle.std.specs.Prelude.{ℕ, List};
    ghost use Rattle.eng_one.specs.Bits.{AreWords};

    ghost Value = { List ℕ };

    ghost view = { λ s. s.words };

    ghost invariant = { λ s. AreWords s.words s.blocks };
}

impl NodeSet {
    pub(crate) fn new() -> NodeSet
        ensures { (k : ℕ) → has result k ≡ false }
    {
        NodeSet {
            words: [0; 32],
            blocks: 0,
        }
    }

    // No node is in it any more. Where none was, as behind a graph that has ended, no word is written.
    pub(crate) fn clear(&mut self)
        ensures { (k : ℕ) → has self.new k ≡ false }
    {
        if self.blocks > 0 {
            self.words = [0; 32];
            self.blocks = 0;
        }
    }

    pub(crate) fn contains(&self, node: u32) -> bool
        requires { node < 2048 }
        ensures { result ≡ has self.now node }
    {
        let word = self.words[node as usize / 64];
        (word >> (node % 64)) & 1 == 1
    }

    pub(crate) fn insert(&mut self, node: u32)
        requires { node < 2048 }
        ensures { (k : ℕ) → has self.new k ≡ (if k == node then true else has self.old k) }
    {
        let block = node / 64;
        let word = with_bit(self.words[block as usize], node % 64);
        self.words[block as usize] = word;
        self.blocks = with_bit(self.blocks, block);
    }

    // A node is taken out, if it is in the set.
    pub(crate) fn remove(&mut self, node: u32)
        requires { node < 2048 }
        ensures { (k : ℕ) → has self.new k ≡ (if k == node then false else has self.old k) }
    {
        let block = node / 64;
        let word = without_bit(self.words[block as usize], node % 64);
        self.words[block as usize] = word;
        if word == 0 {
            self.blocks = without_bit(self.blocks, block);
        }
    }

    // The first node of the set from this number on, which may be any.
    pub(crate) fn first_from(&self, from: u32) -> Option<u32>
        ensures { MatchOption result (NoneFrom (has self.now) from)
            (IsFirstFrom (has self.now) from) }
    {
        let words = &self.words;
        if from >= 2048 {
            return None;
        }
        let block = from / 64;
        match first_bit(words[block as usize], from % 64) {
            Some(bit) => Some(block * 64 + bit),
            None => self.first_after(block),
        }
    }

    // The first node of the set in the words after this one.
    fn first_after(&self, block: u32) -> Option<u32>
        requires { block < 32 }
        ensures { MatchOption result (NoneFrom (has self.now) (64 * block + 64))
            (IsFirstFrom (has self.now) (64 * block + 64)) }
    {
        match first_bit(self.blocks, block + 1) {
            None => None,
            Some(later) => match first_bit(self.words[later as usize], 0) {
                None => unreachable!(),
                Some(bit) => Some(later * 64 + bit),
            },
        }
    }
}

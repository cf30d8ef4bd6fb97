//! Numbers of a design.
ghost use Rattle.std.specs.Prelude.{◌≡◌, ◌++◌, ◌∷◌, [], IfOk, IfErr};

use crate::fault::ConfFault;
use std::alloc::Global;
use std::marker::Model;

/// Numbers one after the other, which contracts see as their list.
#[derive(Drop)]
pub struct Numbers {
    items: Vec<u32>,
}

impl Model for Numbers {
    ghost use Rattle.std.specs.Prelude.{List, ℕ};

    ghost Value = { List ℕ };

    ghost view = { λ n. n.items.items };
}

impl Numbers {
    pub(crate) fn new(alloc: Global) -> Numbers
        ensures { result ≡ [] }
    {
        Numbers {
            items: Vec::new(alloc),
        }
    }

    pub(crate) fn push(&mut self, n: u32) -> Result<(), ConfFault>
        ensures value { IfOk result (λ _. self.new ≡ self.old ++ n ∷ []) }
        ensures memory { IfErr result (λ fault. fault ≡ ConfFault.Memory) }
    {
        match self.items.push(n) {
            Ok(()) => Ok(()),
            Err(_) => Err(ConfFault::Memory),
        }
    }

    /// The same numbers in a vector of their own.
    pub(crate) fn copy(&self) -> Result<Vec<u32>, ConfFault>
        ensures { IfOk result (λ numbers. numbers.items ≡ self.now) }
    {
        match self.items.clone() {
            Ok(numbers) => Ok(numbers),
            Err(_) => Err(ConfFault::Memory),
        }
    }

    /// The numbers.
    pub fn as_slice(&self) -> &[u32]
        ensures { result.now ≡ self.now }
    {
        &self.items
    }
}

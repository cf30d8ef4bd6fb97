//! Names of disks.
ghost use Rattle.std.specs.Prelude.{◌≡◌, ◌<◌, ◌≤◌, ◌++◌, ◌∷◌, [], length, slice_get, Some, IfOk, IfErr};
ghost use Rattle.raid_conf.specs.Steps.{has_name};

use crate::fault::ConfFault;
use std::alloc::Global;
use std::marker::Model;

// A name, which contracts see as the list of its bytes.
#[derive(Drop)]
struct Name {
    text: String,
}

impl Model for Name {
    ghost use Rattle.std.specs.Prelude.{List, ℕ, string_bytes};

    ghost Value = { List ℕ };

    ghost view = { λ n. string_bytes n.text };
}

/// Names of disks in their order, at most 32, which contracts see as a list of texts. That of an
/// absent disk is empty.
#[derive(Drop)]
pub struct Names {
    items: Vec<Name>,
}

impl Model for Names {
    ghost use Rattle.std.specs.Prelude.{List, ℕ, ◌≤◌, length};

    ghost Value = { List (List ℕ) };

    ghost view = { λ n. n.items.items };

    ghost invariant = { λ n. length n.items.items ≤ 32 };
}

impl Name {
    fn new(alloc: Global, text: &str) -> Result<Name, ConfFault>
        ensures value { IfOk result (λ name. name ≡ text.now) }
        ensures memory { IfErr result (λ fault. fault ≡ ConfFault.Memory) }
    {
        match String::from_str(alloc, text) {
            Ok(text) => Ok(Name { text }),
            Err(_) => Err(ConfFault::Memory),
        }
    }

    fn text(&self) -> &str
        ensures { result.now ≡ self.now }
    {
        self.text.as_str()
    }
}

impl Names {
    pub(crate) fn new(alloc: Global) -> Names
        ensures { result ≡ [] }
    {
        Names {
            items: Vec::new(alloc),
        }
    }

    pub(crate) fn push(&mut self, alloc: Global, text: &str) -> Result<(), ConfFault>
        requires { length self.old < 32 }
        ensures value { IfOk result (λ _. self.new ≡ self.old ++ text.now ∷ []) }
        ensures memory { IfErr result (λ fault. fault ≡ ConfFault.Memory) }
    {
        let name = Name::new(alloc, text)?;
        match self.items.push(name) {
            Ok(()) => Ok(()),
            Err(_) => Err(ConfFault::Memory),
        }
    }

    pub(crate) fn has(&self, name: &str) -> bool
        ensures { result ≡ has_name self.now name.now }
    {
        is_among(&self.items, name)
    }

    /// How many there are, at most 32.
    pub fn len(&self) -> u32
        ensures count { result ≡ length self.now }
        ensures few { result ≤ 32 }
    {
        self.items.len() as u32
    }

    /// The name in a place, from 0.
    pub fn get(&self, i: u32) -> &str
        requires { i < length self.now }
        ensures { slice_get self.now i ≡ Some result.now }
    {
        self.items[i as usize].text()
    }
}

#[tactic(auto, unfolding(crate::specs::Steps::has_name))]
fn is_among(names: &[Name], name: &str) -> bool
    ensures { result ≡ has_name names.now name.now }
{
    names.iter().any(|n| n.text() == name)
}

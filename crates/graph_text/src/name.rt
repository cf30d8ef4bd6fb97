//! Names of graphs.
ghost use Rattle.std.specs.Prelude.{◌≡◌, ◌≤◌, length};
ghost use Rattle.std.specs.List.{list_all};
ghost use Rattle.std.specs.Str.{bytes_eq};
ghost use Rattle.graph_text.specs.Format.{is_name};
ghost use Rattle.graph_text.specs.Steps.{is_name_byte};

use std::marker::Model;

/// The most bytes of a name.
const NAME_BYTES: usize = 32;

/// A name of at most 32 bytes, which contracts see as the list of its bytes.
#[derive(Drop)]
pub struct Name {
    bytes: [u8; 32],
    len: usize,
}

impl Model for Name {
    ghost use Rattle.std.specs.Prelude.{ℕ, ◌≤◌, List, take};

    ghost Value = { List ℕ };

    ghost view = { λ n. take n.len n.bytes };

    ghost invariant = { λ n. n.len ≤ 32 };
}

impl Name {
    /// The name that is spelled so.
    pub fn new(word: &[u8]) -> Name
        requires { length word.now ≤ 32 }
        ensures { result ≡ word.now }
    {
        let mut bytes = [0u8; 32];
        bytes[..word.len()].copy_from_slice(word);
        Name {
            bytes,
            len: word.len(),
        }
    }

    /// Whether it is spelled so.
    pub fn is(&self, word: &[u8]) -> bool
        ensures { result ≡ bytes_eq self.now word.now }
    {
        &self.bytes[..self.len] == word
    }
}

fn is_name_byte(b: u8) -> bool
    ensures { result ≡ is_name_byte b }
{
    (b'a' <= b && b <= b'z') || ((b'0' <= b && b <= b'9') || (b == b'_' || b == b'-'))
}

fn are_name_bytes(word: &[u8]) -> bool
    ensures { result ≡ list_all is_name_byte word.now }
{
    word.iter().all(|b| is_name_byte(*b))
}

/// Whether a word is a name: 1 to 32 of `a` to `z`, `0` to `9`, `_` and `-`.
#[tactic(auto, unfolding(crate::specs::Format::is_name))]
pub fn is_name(word: &[u8]) -> bool
    ensures { result ≡ is_name word.now }
{
    (1 <= word.len() && word.len() <= NAME_BYTES) && are_name_bytes(word)
}

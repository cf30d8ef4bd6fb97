//! The bits of a word.
ghost use Rattle.std.specs.Prelude.{◌≡◌, ℕ, ◌<◌, ◌==◌, MatchOption, if◌then◌else◌};
ghost use Rattle.std.specs.Int.{bit_at};
ghost use Rattle.eng_one.specs.Bits.{NoBit, IsFirstBit};

/// The word with this bit set.
pub fn with_bit(word: u64, bit: u32) -> u64
    requires { bit < 64 }
    ensures { (k : ℕ) → bit_at result k ≡ (if k == bit then 1 else bit_at word k) }
{
    word | (1 << bit)
}

/// The word without this bit.
pub fn without_bit(word: u64, bit: u32) -> u64
    requires { bit < 64 }
    ensures { (k : ℕ) → bit_at result k ≡ (if k == bit then 0 else bit_at word k) }
{
    word & !(1 << bit)
}

/// The first bit that is set from this one on.
pub fn first_bit(word: u64, from: u32) -> Option<u32>
    requires { from < 64 }
    ensures { MatchOption result (NoBit word from) (IsFirstBit word from) }
{
    let rest = word >> from;
    if rest == 0 {
        None
    } else {
        Some(from + rest.trailing_zeros())
    }
}

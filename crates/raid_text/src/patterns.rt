//! Patterns.
ghost use Rattle.std.specs.Prelude.{◌≡◌, option_map};
ghost use Rattle.raid_text.specs.Pattern.{pattern_bytes, pattern_of};
ghost use Rattle.raid_text.specs.Printed.{is_digit_count};

use blk_plain::Pattern;

// Whether so many digits spell 1, 2, 4, 8, 16 or 32 bytes.
fn is_digit_count(n: usize) -> bool
    ensures { result ≡ is_digit_count n }
{
    n == 2 || n == 4 || n == 8 || n == 16 || n == 32 || n == 64
}

/// The pattern that a word spells: 2, 4, 8, 16, 32 or 64 hexadecimal digits of either case, two for
/// each of its bytes. None exactly for any other word.
#[tactic(auto, unfolding(crate::specs::Pattern::pattern_of))]
pub fn pattern(word: &[u8]) -> Option<Pattern>
    ensures { option_map pattern_bytes result ≡ pattern_of word.now }
{
    if !is_digit_count(word.len()) {
        return None;
    }
    let len = word.len() / 2;
    let mut bytes = [0u8; 32];
    match hex::decode_to_slice(word, &mut bytes[..len]) {
        Ok(()) => Some(Pattern {
            len: len as u8,
            bytes,
        }),
        Err(_) => None,
    }
}

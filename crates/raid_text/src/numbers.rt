//! Numbers.
ghost use Rattle.std.specs.Prelude.{◌≡◌};
ghost use Rattle.raid_text.specs.Text.{number_of};

/// The number that a word is: 1 to 10 decimal digits, leading zeros allowed, at most 4,294,967,295.
/// None exactly for any other word.
pub fn number(word: &[u8]) -> Option<u32>
    ensures { result ≡ number_of word.now }
{
    if word.is_empty() || word.len() > 10 {
        return None;
    }
    let mut value: u64 = 0;
    for b in word {
        if !b.is_ascii_digit() {
            return None;
        }
        value = value * 10 + u64::from(*b - b'0');
    }
    if value < 1 << 32 {
        Some(value as u32)
    } else {
        None
    }
}

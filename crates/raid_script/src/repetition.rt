//! The string that a sector repeats.
ghost use Rattle.std.specs.Prelude.{◌≡◌, ◌≤◌, ◌<◌, ◌*◌, ◌↔◌, ℕ, List, length, take, drop, bytes_eq, slice_index, Contains, IsTrue};
ghost use Rattle.raid_script.specs.Repetition.{filled_by, shortest};
ghost use Rattle.raid_script.specs.Steps.{lengths};

// Whether all bytes are the first one. Each byte is looked at, so that the compiler takes many at once.
fn is_uniform(sector: &[u8; 512]) -> bool
    ensures { IsTrue result
        ↔ ((k : ℕ) → k < 512 → slice_index sector.now k ≡ slice_index sector.now 0) }
{
    let mut uniform = true;
    for k in 0..512 {
        uniform &= sector[k] == sector[0];
    }
    uniform
}

// Whether the bytes behind the first half of a front are those of that half.
fn is_doubled(sector: &[u8; 512], half: usize) -> bool
    requires { 2 * half ≤ 512 }
    ensures { result ≡ bytes_eq (take half sector.now) (take half (drop half sector.now)) }
{
    let front = &sector[..half];
    let back = &sector[half..2 * half];
    front == back
}

/// The shortest string of 1, 2, 4, .., 512 bytes whose repetition is the sector.
///
/// One pass tells whether one byte fills the sector. Else it is halved while its halves are equal, so that at most
/// 511 pairs of bytes are compared.
pub fn shortest_string(sector: &[u8; 512]) -> &[u8]
    ensures value { result.now ≡ shortest sector.now }
    ensures short { length result.now ≤ 512 }
    ensures listed { Contains lengths (length result.now) }
    ensures repeats { filled_by result.now ≡ sector.now }
    ensures least { (string : List ℕ) → Contains lengths (length string) →
        filled_by string ≡ sector.now → length result.now ≤ length string }
{
    let mut length = if is_uniform(sector) { 1 } else { 512 };
    while length > 1 && is_doubled(sector, length / 2) {
        length /= 2;
    }
    &sector[..length]
}

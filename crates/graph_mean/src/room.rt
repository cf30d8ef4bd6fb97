//! How much room a list is given.
ghost use Rattle.std.specs.Prelude.{◌≡◌, ◌+◌};

// So many entries more.
const MORE: usize = 64;

/// How many entries to reserve for a list of so many whose first ones are used again and again.
///
/// An allocator puts blocks of a multiple of 4 KiB side by side, a few bytes between them. So the beginnings of such lists
/// would all fall into the same few sets of a processor's first cache, which then holds not all of them.
pub fn room_for(count: u32) -> usize
    ensures { result ≡ count + 64 }
{
    count as usize + MORE
}

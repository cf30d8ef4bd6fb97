//! Whether all is done.
ghost use Rattle.std.specs.Prelude.{◌≡◌, ◌↔◌, ℕ, IsTrue, length};
ghost use Rattle.eng_clients.specs.Desk.{desk_at};
ghost use Rattle.eng_state.specs.Sound.{IsSound};
ghost use Rattle.eng_choice.specs.Picked.{IsResting};

use crate::picks::CLIENTS;
use blk_disk::Disk;
use eng_job::MOST;
use eng_state::Array;
use lay_core::Layout;

// Whether each item of every client has a reply.
fn is_replied<L: Layout, D: Disk>(array: &Array<L, D>) -> bool
    requires { IsSound L.Layout D.Disk array.now }
    ensures { IsTrue result ↔ ((c : ℕ) → length (desk_at array.now.clients c).replies
        ≡ length (desk_at array.now.clients c).items) }
{
    for client in 0..CLIENTS {
        if !array.clients.is_replied(client) {
            return false;
        }
    }
    true
}

/// Whether each item has a reply, or the array is lost, and no job is out.
pub fn rest<L: Layout, D: Disk>(array: &Array<L, D>) -> bool
    requires { IsSound L.Layout D.Disk array.now }
    ensures { IsTrue result ↔ IsResting array.now }
{
    if array.lists.count() < MOST {
        return false;
    }
    array.lost.is_some() || is_replied(array)
}

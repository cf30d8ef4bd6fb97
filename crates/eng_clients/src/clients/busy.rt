//! Which clients may have something to do.
ghost use Rattle.std.specs.Prelude.{◌≡◌, ◌≤◌, ◌<◌, ℕ, MatchOption};
ghost use Rattle.eng_clients.specs.Busy.{IsQuiet};
ghost use Rattle.eng_clients.specs.Desk.{desk_at};

use crate::clients::Clients;
use eng_one::first_bit;

impl Clients {
    /// The first client from a number on that may have something to do. Those before it, or all of them where there is none,
    /// have no operation and no item left.
    pub fn busy_from(&self, from: u32) -> Option<u32>
        requires { from ≤ 17 }
        ensures { MatchOption result ((k : ℕ) → from ≤ k → IsQuiet (desk_at self.now k))
            (λ c. (from ≤ c) × ((k : ℕ) → from ≤ k → k < c → IsQuiet (desk_at self.now k))) }
    {
        first_bit(self.busy, from)
    }
}

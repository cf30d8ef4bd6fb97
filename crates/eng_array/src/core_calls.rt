//! What an engine tells of itself, and which event is next.
ghost use Rattle.std.specs.Prelude.{◌≡◌, ◌↔◌, None, IsTrue, MatchOption, IfSome, length, option_map};
ghost use Rattle.eng_world.specs.World.{World};
ghost use Rattle.eng_clients.specs.Desk.{desk_at};
ghost use Rattle.eng_rest.specs.Left.{below};
ghost use Rattle.eng_state.specs.Doing.{CanDo};
ghost use Rattle.eng_state.specs.Out.{IsOut};
ghost use Rattle.eng_choice.specs.Picked.{next_after, IsPicked, IsResting, IsStuck, StandsThere};
ghost use Rattle.eng_state.specs.Shows.{Shows};
ghost use Rattle.eng_array.specs.Steady.{IsSteady};
ghost use Rattle.eng_array.specs.Tickets.{Quiet};

use crate::calls::Core;
use blk_disk::Disk;
use blk_plain::limits;
use eng_choice::{Chosen, can, pick, rest};
use eng_job::Job;
use eng_world::Event;
use lay_core::Layout;

impl<L: Layout, D: Disk> Core<L, D> {
    /// Whether the event can be done now. Events of clients and nodes that aren't there can't.
    pub fn can(&self, event: Event) -> bool
        requires { IsSteady L.Layout D.Disk self.now.array }
        ensures { IsTrue result ↔ CanDo L.Layout self.now.array event }
    {
        match self.array.lost {
            Some(_) => false,
            None => can(&self.array, event),
        }
    }

    /// Chooses the event that is done next: the clients are tried in a ring, from the one after that of the last
    /// choice on, and of a client its begin, take and back, and then the least node that can be skipped or fired. None
    /// exactly where no event can be done but the end of a job.
    pub fn pick(&mut self) -> Option<Event>
        requires { IsSteady L.Layout D.Disk self.old.array }
        ensures event { MatchOption result (IsStuck L.Layout self.old.array)
            (IsPicked L.Layout self.old.array) }
        ensures can { IfSome result (CanDo L.Layout self.new.array) }
        ensures next { self.new.array
            ≡ record self.old.array { next = next_after self.old.array.next result } }
        ensures steady { IsSteady L.Layout D.Disk self.new.array }
        ensures shows { (w : World) → Shows D.Disk self.old.array w
            → Shows D.Disk self.new.array w }
        ensures stays { (job : Job D) → IsOut D.Disk L.Layout self.old.array job
            → IsOut D.Disk L.Layout self.new.array job }
        ensures quiet { Quiet L.Layout D.Disk self.old.array self.new.array }
        ensures none { result ≡ None → self.new.array ≡ self.old.array }
    {
        match self.choose() {
            Some(chosen) => Some(chosen.event),
            None => None,
        }
    }

    // The same, with where the unit of the event's node stands.
    fn choose(&mut self) -> Option<Chosen>
        requires { IsSteady L.Layout D.Disk self.old.array }
        ensures event { MatchOption result (IsStuck L.Layout self.old.array)
            (λ c. IsPicked L.Layout self.old.array c.event) }
        ensures can { IfSome result (λ c. CanDo L.Layout self.new.array c.event) }
        ensures at { IfSome result (StandsThere L.Layout self.new.array) }
        ensures next { self.new.array ≡ record self.old.array
            { next = next_after self.old.array.next (option_map (λ c. c.event) result) } }
        ensures steady { IsSteady L.Layout D.Disk self.new.array }
        ensures shows { (w : World) → Shows D.Disk self.old.array w
            → Shows D.Disk self.new.array w }
        ensures stays { (job : Job D) → IsOut D.Disk L.Layout self.old.array job
            → IsOut D.Disk L.Layout self.new.array job }
        ensures quiet { Quiet L.Layout D.Disk self.old.array self.new.array }
        ensures none { result ≡ None → self.new.array ≡ self.old.array }
    {
        match self.array.lost {
            Some(_) => None,
            None => pick(&mut self.array),
        }
    }

    /// The client that is tried first.
    pub fn next(&self) -> u32
        ensures { result ≡ self.now.array.next }
    {
        self.array.next
    }

    /// Chooses as [`Core::pick`] does, but that the clients are tried from this one on, and tells where the unit of the
    /// node stands that is to be fired: so it need not be looked for again. Where there is none it is tried from the same
    /// client as before.
    pub fn choose_from(&mut self, client: u32) -> Option<Chosen>
        requires { IsSteady L.Layout D.Disk self.old.array }
        ensures event { MatchOption result (IsStuck L.Layout self.old.array)
            (λ c. IsPicked L.Layout (record self.old.array { next = client }) c.event) }
        ensures can { IfSome result (λ c. CanDo L.Layout self.new.array c.event) }
        ensures at { IfSome result (StandsThere L.Layout self.new.array) }
        ensures next { self.new.array ≡ record self.old.array
            { next = next_after self.old.array.next (option_map (λ c. c.event) result) } }
        ensures steady { IsSteady L.Layout D.Disk self.new.array }
        ensures shows { (w : World) → Shows D.Disk self.old.array w
            → Shows D.Disk self.new.array w }
        ensures stays { (job : Job D) → IsOut D.Disk L.Layout self.old.array job
            → IsOut D.Disk L.Layout self.new.array job }
        ensures quiet { Quiet L.Layout D.Disk self.old.array self.new.array }
        ensures none { result ≡ None → self.new.array ≡ self.old.array }
    {
        let before = self.array.next;
        self.array.next = client;
        let chosen = self.choose();
        if chosen.is_none() {
            self.array.next = before;
        }
        chosen
    }

    /// Whether each item has a reply, or the array is lost, and no job is out.
    pub fn rest(&self) -> bool
        requires { IsSteady L.Layout D.Disk self.now.array }
        ensures { IsTrue result ↔ IsResting self.now.array }
    {
        rest(&self.array)
    }

    /// How many items have a reply, of all clients, the engine's own among them.
    pub fn replied(&self) -> u64
        requires { IsSteady L.Layout D.Disk self.now.array }
        ensures { result ≡ below (λ c. length (desk_at self.now.array.clients c).replies) 17 }
    {
        let mut replied = 0;
        for client in 0..limits::CLIENTS + 1 {
            replied += u64::from(self.array.clients.served(client));
        }
        replied
    }
}

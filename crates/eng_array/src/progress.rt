//! That a core comes to rest. These functions do nothing: what they ensure is so.
ghost use Rattle.std.specs.Prelude.{◌≡◌, ◌<◌, ◌≤◌, ◌+◌, ◌*◌, ℕ, List, length};
ghost use Rattle.eng_world.specs.declared.item.Traced.{Traced};
ghost use Rattle.eng_world.specs.World.{World};
ghost use Rattle.eng_rest.specs.Left.{alive, all_left, IsOwn};
ghost use Rattle.eng_rest.specs.Few.{count_of};
ghost use Rattle.eng_state.specs.declared.array.Array.{Array};
ghost use Rattle.eng_array.specs.Chain.{Chain, HaveFewNodes};
ghost use Rattle.eng_clients.specs.Desk.{desk_at};
ghost use Rattle.eng_events.specs.Opened.{NoneOut};
ghost use Rattle.eng_choice.specs.Picked.{IsResting, IsStuck};
ghost use Rattle.eng_array.specs.Progress.{most_nodes, item_left_of, left_of, Falls};
ghost use Rattle.eng_state.specs.Serves.{CanTake, HasThere};
ghost use Rattle.eng_state.specs.Shows.{Shows};
ghost use Rattle.eng_state.specs.Sound.{IsOutOf};
ghost use Rattle.eng_array.specs.Steady.{IsSteady};
ghost use Rattle.eng_state.specs.Steps.{Follows};
ghost use Rattle.eng_array.specs.Tickets.{AllOf, Happens, Goes, Quiet};

use blk_disk::Disk;
use lay_core::Layout;

/// What a core has left to do is what each world that it shows has left, and each event of an operation lowers it. So a
/// core that makes one after another comes to an end.
pub fn each_event_leaves_less<L: Layout, D: Disk>()
    ensures shown { (core : Array L D) (w : World) → Shows D.Disk core w
        → all_left most_nodes w 17 ≡ left_of core }
    ensures falls { (old new : Array L D) (event : Traced) → IsOwn event
        → IsSteady L.Layout D.Disk old → IsSteady L.Layout D.Disk new
        → Follows L.Layout D.Disk old event new → Falls old new }
    ensures happens { (old new : Array L D) (event : Traced) → IsOwn event
        → IsSteady L.Layout D.Disk old
        → Happens L.Layout D.Disk event old new → Falls old new }
    ensures chain { (old new : Array L D) (events : List Traced) → AllOf IsOwn events
        → IsSteady L.Layout D.Disk old
        → Goes L.Layout D.Disk old events new → length events + left_of new ≤ left_of old }
    ensures look { (old new : Array L D) → Quiet L.Layout D.Disk old new
        → left_of new ≡ left_of old }
    ensures choice { (core : Array L D) (next : ℕ)
        → left_of (record core { next = next }) ≡ left_of core }
{}

/// A chain of cores has at most as many events of an item as the item had left at its start. Where none of the client's
/// nodes is out then, and no graph of the item has more than m nodes in any core of the chain, these are at most 2 m + 4,
/// and as many again for each column that dies.
pub fn events_of_an_item_are_few<L: Layout, D: Disk>()
    ensures left { (old new : Array L D) (events : List Traced) (m c i : ℕ)
        → (chain : Chain L.Layout D.Disk old events new)
        → IsSteady L.Layout D.Disk old → i < length (desk_at old.clients c).items
        → HaveFewNodes L.Layout D.Disk m c i old events new chain
        → item_left_of m new c i + count_of events c i ≤ item_left_of m old c i }
    ensures few { (old new : Array L D) (events : List Traced) (m c i deaths : ℕ)
        → (chain : Chain L.Layout D.Disk old events new)
        → IsSteady L.Layout D.Disk old → i < length (desk_at old.clients c).items
        → HaveFewNodes L.Layout D.Disk m c i old events new chain
        → ((n : ℕ) → IsOutOf (desk_at old.clients c) n → ⊥)
        → alive old.cols.states ≡ alive new.cols.states + deaths
        → count_of events c i ≤ (1 + deaths) * (2 * m + 4) }
{}

/// A steady core of which no node is out, and that can do no event, is at rest: there is always something to do until all
/// is done.
pub fn somebody_goes_on<L: Layout, D: Disk>()
    ensures { (core : Array L D) → IsSteady L.Layout D.Disk core
        → NoneOut core.clients → IsStuck L.Layout core → IsResting core }
{}

/// An operation that can be taken finds its buffers there. So the events of a core are those of one whose 2,048 buffers all
/// have memory: what can be taken goes by these alone.
pub fn leases_are_there<L: Layout, D: Disk>()
    ensures { (core : Array L D) (c : ℕ) → IsSteady L.Layout D.Disk core
        → CanTake L.Layout core c → HasThere L.Layout core c }
{}

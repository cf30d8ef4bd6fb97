//! What holds of every run, whatever fails and in whatever order nodes are fired and finish. These
//! functions do nothing: what they ensure is so.
ghost use Rattle.std.specs.Prelude.{◌≡◌, ◌<◌, ◌≤◌, ◌+◌, ◌*◌, ℕ, List, length, None};
ghost use Rattle.lay_core.specs.Layout.{Shape, IsLayout};
ghost use Rattle.eng_world.specs.declared.item.Traced.{Traced};
ghost use Rattle.eng_world.specs.World.{World};
ghost use Rattle.eng_world.specs.Planning.{Graphs, Promises};
ghost use Rattle.eng_world.specs.Pool.{HaveItems};
ghost use Rattle.eng_world.specs.Step.{IsOpening, Step, EventsLead};
ghost use Rattle.eng_rest.specs.Left.{left, all_left, alive, of_item, IsOwn, IsLater, Within, EachWithin, NoneOut, IsIndexed};
ghost use Rattle.eng_rest.specs.Few.{count_of, AreLater, GraphsWithin, Stands};

/// Each event leaves less of its own item, and no more of any other, whatever column dies with it.
/// An event by which a rebuild begins is left out: it gives client 16 new items.
pub fn uses_up()
    ensures { (y : Shape) (graphs : Graphs) (event : Traced) (old new : World) (m c i : ℕ)
        → IsLater event → IsIndexed old → i < length (old.clients c).items
        → Within m (old.clients c) i → Within m (new.clients c) i
        → Step y graphs event old new
        → left m new c i + of_item event c i ≤ left m old c i }
{}

/// In every world that a run reaches, what a client is served is its first item without reply; once
/// the array is lost all items have theirs. An opening is such a world, and each event keeps it so.
pub fn indexes_stay()
    ensures opening { (y : Shape) (opening : World) → IsOpening y opening → IsIndexed opening }
    ensures event { (y : Shape) (graphs : Graphs) (event : Traced) (old new : World)
        → IsIndexed old → Step y graphs event old new → IsIndexed new }
{}

/// So each event of an operation lowers what is left of all items together: an engine that makes one
/// after another comes to an end, and a list with room for that many events is never full.
pub fn all_falls()
    ensures { (y : Shape) (graphs : Graphs) (event : Traced) (old new : World)
        → (most : ℕ → ℕ → ℕ) (n : ℕ)
        → IsOwn event → IsIndexed old → HaveItems old n → EachWithin most old → EachWithin most new
        → Step y graphs event old new
        → all_left most new n < all_left most old n }
{}

/// A run has at most as many events of an item as the item had left at its start. Where none of the
/// client's jobs is out then, and no graph of the item has more than m nodes, these are at most
/// 2 m + 4, and as many again for each column that dies.
pub fn events_of_an_item_are_few()
    ensures left { (y : Shape) (graphs : Graphs) (start now : World) (events : List Traced)
        (m c i : ℕ)
        → (run : EventsLead y graphs start events now) → AreLater events → IsIndexed start
        → i < length (start.clients c).items → GraphsWithin y graphs m c i start events now run
        → left m now c i + count_of events c i ≤ left m start c i }
    ensures few { (y : Shape) (graphs : Graphs) (start now : World) (events : List Traced)
        → (m c i deaths : ℕ)
        → (run : EventsLead y graphs start events now) → AreLater events → IsIndexed start
        → i < length (start.clients c).items → GraphsWithin y graphs m c i start events now run
        → NoneOut (start.clients c) → alive start.columns ≡ alive now.columns + deaths
        → count_of events c i ≤ (1 + deaths) * (2 * m + 4) }
{}

/// While the array isn't lost and no job is out, each item has its reply, or an event is possible, or
/// an operation waits and nothing runs. Whether that one can be taken is for `work_goes_on` of eng_world,
/// which asks for a plan of it.
pub fn somebody_goes_on()
    ensures { (y : Shape) (graphs : Graphs) (opening now : World) (events : List Traced) (n : ℕ)
        → IsLayout y → Promises graphs → IsOpening y opening → HaveItems opening n
        → EventsLead y graphs opening events now
        → now.lost ≡ None → now.out ≡ 0
        → Stands y graphs now }
{}

//! What the worlds that a core shows allow.
ghost use Rattle.std.specs.Prelude.{◌↔◌};
ghost use Rattle.eng_world.specs.World.{World};
ghost use Rattle.eng_world.specs.Step.{Possible};
ghost use Rattle.eng_state.specs.Doing.{CanDo};
ghost use Rattle.eng_state.specs.Serves.{Stands};
ghost use Rattle.eng_state.specs.Shows.{Shows};
ghost use Rattle.eng_state.specs.Sound.{IsSound};
ghost use Rattle.eng_state.specs.Steps.{graphs_of};

use blk_disk::Disk;
use eng_state::Array;
use eng_world::Event;
use lay_core::Layout;

/// A law: an event can be done exactly where it is possible, in whichever world the core shows. The function does
/// nothing.
pub fn what_is_possible_can_be_done<L: Layout, D: Disk>(core: &Array<L, D>, event: Event)
    requires sound { IsSound L.Layout D.Disk core.now }
    requires stands { Stands L.Layout core.now }
    ensures { (w : World) → Shows D.Disk core.now w → Possible (L.shape core.now.layout)
        (graphs_of core.now.graphs.items) event w ↔ CanDo L.Layout core.now event }
{
    let _ = core;
    let _ = event;
}

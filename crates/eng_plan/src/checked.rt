//! The checker takes what the library draws.
ghost use Rattle.std.specs.Prelude.{◌≡◌, true, length, IsOk};
ghost use Rattle.graph_mean.specs.Task.{missing_of};
ghost use Rattle.graph_check.specs.Pieces.{pieces_of};
ghost use Rattle.graph_check.specs.Room.{pieces_in};
ghost use Rattle.graph_lib.specs.Library.{library};
ghost use Rattle.graph_lib.specs.Laws.{AreMissing, HasRoom, IsPlannable};

use graph_check::{Checked, Scratch, check};
use graph_lib::plan;
use graph_mean::{Graph, Refusal, Task};

/// The library's graph of a task, each missing unit of which can be written, is drawn into a graph that has the room,
/// and the checker looks at it: it accepts it, and has looked at each of its pieces.
pub fn plan_and_check(
    task: &Task,
    missing: &[Option<u8>],
    graph: &mut Graph,
    scratch: &mut Scratch,
) -> Result<Checked, Refusal>
    requires room { HasRoom graph.old }
    requires missing { length missing.now ≡ task.now.stripes }
    requires gone { AreMissing task.now (missing_of missing.now) }
    requires task { IsPlannable task.now }
    ensures graph { graph.new
        ≡ record graph.old { drawn = library task.now (missing_of missing.now) true } }
    ensures accepted { IsOk result }
    ensures pieces { pieces_in scratch.new
        ≡ pieces_of (library task.now (missing_of missing.now) true) task.now }
{
    plan(task, missing, true, graph);
    check(graph, task, missing, scratch)
}

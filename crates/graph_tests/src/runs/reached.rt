//! What may be done with a run that steps of an ordered graph have led to, and that it stays one.
ghost use Rattle.std.specs.Prelude.{◌≡◌, ◌<◌, length, count_by};
ghost use Rattle.graph_mean.specs.declared.step.Status.TheVariants.{Out};
ghost use Rattle.graph_mean.specs.declared.step.Phase.TheVariants.{After};
ghost use Rattle.graph_mean.specs.Graph.{kind_at};
ghost use Rattle.graph_mean.specs.Steps.{IsCall, IsRunning, is_out};
ghost use Rattle.eng_one.specs.Control.{mark_of, IsWrite, IsReadyIn};
ghost use Rattle.eng_one.specs.Samples.{IsServed};

use eng_one::{
    Outcome, Run, count_follows_the_marks, no_write_is_out_before_the_commit, run_goes_on,
    skip_reaches, step_reaches,
};
use graph_mean::Graph;

// A read or a write that is out ends bad.
fn fail(run: &mut Run, graph: &Graph, node: u32)
    requires graph { graph.now.drawn ≡ run.old.graph }
    requires node { node < length run.old.graph.nodes }
    requires served { IsServed run.old }
    requires call { IsCall (kind_at run.old.graph node) }
    requires out { mark_of run.old node ≡ Out }
    ensures { IsServed run.new }
{
    no_write_is_out_before_the_commit();
    step_reaches();
    run.finish(graph, node, Outcome::Bad);
}

// A write that is ready after the commit is passed over.
fn pass_over(run: &mut Run, graph: &Graph, node: u32)
    requires graph { graph.now.drawn ≡ run.old.graph }
    requires served { IsServed run.old }
    requires ready { IsReadyIn run.old node }
    requires write { IsWrite (kind_at run.old.graph node) }
    requires after { run.old.phase ≡ After }
    ensures { IsServed run.new }
{
    skip_reaches();
    run.skip(graph, node);
}

// The node that is fired next, where none is out.
fn next(run: &Run) -> u32
    requires served { IsServed run.now }
    requires running { IsRunning run.now.phase }
    requires none { count_by is_out run.now.marks ≡ 0 }
    ensures { IsReadyIn run.now result }
{
    count_follows_the_marks();
    run_goes_on();
    run.least_ready(0).unwrap_or(0)
}

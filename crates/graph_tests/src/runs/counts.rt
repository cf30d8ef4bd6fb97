//! How many of its antecedents a node waits for.
ghost use Rattle.std.specs.Prelude.{◌≡◌};

use crate::judging::{holds, same_at};
use crate::runs::graphs;
use crate::runs::orders::{do_finish, do_fire, do_pass, replay, see_ready};
use eng_one::Run;
use graph_mean::Graph;
use std::process::Abort;
use std::test::Fail;

// The node of that number waits for so many.
fn see_unmet(rt: &impl Abort, run: &Run, graph: &Graph, node: u32, want: u32)
    requires { graph.now.drawn ≡ run.now.graph }
{
    let known = node < graph.nodes();
    assert!(rt; known);
    same_at(rt, node, run.unmet(node), want);
}

#[test]
fn the_terminator_waits_for_each_write(rt: HostRuntime) -> Result<(), Fail> {
    let graph = graphs::whole(rt.alloc())?;
    let mut run = Run::open(rt.alloc())?;
    holds(&rt, replay(&mut run, &graph, &[0, 1]));
    see_unmet(&rt, &run, &graph, 7, 5);
    see_ready(&rt, &run, &graph, &[2, 3, 4, 5, 6]);
    do_pass(&rt, &mut run, &graph, 3);
    see_unmet(&rt, &run, &graph, 7, 4);
    do_fire(&rt, &mut run, &graph, 4);
    see_unmet(&rt, &run, &graph, 7, 4);
    do_finish(&rt, &mut run, &graph, 4);
    see_unmet(&rt, &run, &graph, 7, 3);
    Ok(())
}

#[test]
fn an_antecedent_that_is_named_twice_counts_twice(rt: HostRuntime) -> Result<(), Fail> {
    let graph = graphs::twice(rt.alloc())?;
    let mut run = Run::open(rt.alloc())?;
    holds(&rt, replay(&mut run, &graph, &[]));
    see_unmet(&rt, &run, &graph, 1, 2);
    see_ready(&rt, &run, &graph, &[0]);
    do_pass(&rt, &mut run, &graph, 0);
    see_unmet(&rt, &run, &graph, 1, 0);
    see_ready(&rt, &run, &graph, &[1]);
    Ok(())
}

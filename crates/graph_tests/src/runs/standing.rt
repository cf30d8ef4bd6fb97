//! Where the nodes of a run stand, and what is so of every run.
ghost use Rattle.std.specs.Prelude.{◌≡◌};
ghost use Rattle.eng_one.specs.Control.{HasOut, NoneOut};

use crate::judging::{same, same_at};
use crate::runs::graphs;
use crate::runs::orders::{do_finish, do_fire, do_pass, see_phase};
use eng_one::{Outcome, Phase, Run, Status};
use graph_mean::{Graph, Node};
use std::process::Abort;
use std::test::Fail;

fn see_marks(rt: &impl Abort, run: &Run, graph: &Graph, want: &[Status])
    requires { graph.now.drawn ≡ run.now.graph }
{
    for node in 0..graph.nodes() {
        let wanted = want.get(node as usize).copied();
        same_at(rt, node, Some(run.status(node)), wanted);
    }
}

fn see_two(rt: &impl Abort, run: &Run, graph: &Graph, first: Status, second: Status)
    requires { graph.now.drawn ≡ run.now.graph }
{
    assert!(rt; 1 < graph.nodes());
    same(rt, (run.status(0), run.status(1)), (first, second));
}

// Ends a read bad that is out.
fn do_fail(rt: &impl Abort, run: &mut Run, graph: &Graph, node: u32)
    requires { graph.now.drawn ≡ run.old.graph }
    ensures { run.new.graph ≡ run.old.graph }
{
    assert!(rt; node < graph.nodes());
    assert!(rt; run.status(node) == Status::Out, "node {node}");
    match graph.node(node) {
        Node::Rd { .. } => run.finish(graph, node, Outcome::Bad),
        _ => assert!(rt; false, "node {node}"),
    }
}

// A run that rolls back has a node that is out.
fn has_out(run: &Run)
    requires { run.now.phase ≡ Phase.RollingBack }
    ensures { HasOut run.now }
{
    run.stands();
}

// One that is undone has none.
fn has_none_out(run: &Run)
    requires { run.now.phase ≡ Phase.Undone }
    ensures { NoneOut run.now }
{
    run.stands();
}

#[test]
fn each_node_says_where_it_stands(rt: HostRuntime) -> Result<(), Fail> {
    let graph = graphs::small(rt.alloc())?;
    let mut run = Run::open(rt.alloc())?;
    run.start(&graph);
    see_marks(&rt, &run, &graph, &[Status::Idle; 7]);
    do_fire(&rt, &mut run, &graph, 1);
    see_two(&rt, &run, &graph, Status::Idle, Status::Out);
    do_finish(&rt, &mut run, &graph, 1);
    see_two(&rt, &run, &graph, Status::Idle, Status::Good);
    do_pass(&rt, &mut run, &graph, 0);
    do_pass(&rt, &mut run, &graph, 2);
    do_pass(&rt, &mut run, &graph, 3);
    same(&rt, run.phase(), Phase::After);
    Ok(())
}

#[test]
fn a_run_that_rolls_back_has_a_node_that_is_out(rt: HostRuntime) -> Result<(), Fail> {
    let graph = graphs::small(rt.alloc())?;
    let mut run = Run::open(rt.alloc())?;
    if run.phase() == Phase::Undone {
        has_none_out(&run);
    }
    run.start(&graph);
    do_fire(&rt, &mut run, &graph, 0);
    do_fire(&rt, &mut run, &graph, 1);
    do_fail(&rt, &mut run, &graph, 0);
    if run.phase() == Phase::RollingBack {
        has_out(&run);
    }
    see_phase(&rt, &run, Phase::RollingBack, 1);
    Ok(())
}

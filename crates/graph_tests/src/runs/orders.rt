//! All orders in which the nodes of a graph can be fired.
ghost use Rattle.std.specs.Prelude.{◌≡◌};
ghost use Rattle.eng_one.specs.Counts.{CanStart};

use crate::judging::{holds, same, same_at};
use crate::runs::graphs;
use eng_one::{Outcome, Phase, Run};
use graph_mean::{Graph, Status};
use std::alloc::{AllocError, Global};
use std::process::Abort;
use std::test::Fail;

// Fires the node and ends it good, if it is ready.
pub(crate) fn pass(run: &mut Run, graph: &Graph, node: u32) -> bool
    requires { graph.now.drawn ≡ run.old.graph }
    ensures { run.new.graph ≡ run.old.graph }
{
    if node >= graph.nodes() || !run.ready(node) {
        return false;
    }
    run.fire(graph, node);
    run.finish(graph, node, Outcome::Good);
    true
}

/// Fires a node that is ready and ends it good.
pub(crate) fn do_pass(rt: &impl Abort, run: &mut Run, graph: &Graph, node: u32)
    requires { graph.now.drawn ≡ run.old.graph }
    ensures { run.new.graph ≡ run.old.graph }
{
    same_at(rt, node, pass(run, graph, node), true);
}

pub(crate) fn do_fire(rt: &impl Abort, run: &mut Run, graph: &Graph, node: u32)
    requires { graph.now.drawn ≡ run.old.graph }
    ensures { run.new.graph ≡ run.old.graph }
{
    assert!(rt; node < graph.nodes());
    assert!(rt; run.ready(node), "node {node}");
    run.fire(graph, node);
}

/// Ends a node good that is out.
pub(crate) fn do_finish(rt: &impl Abort, run: &mut Run, graph: &Graph, node: u32)
    requires { graph.now.drawn ≡ run.old.graph }
    ensures { run.new.graph ≡ run.old.graph }
{
    assert!(rt; node < graph.nodes());
    assert!(rt; run.status(node) == Status::Out, "node {node}");
    run.finish(graph, node, Outcome::Good);
}

// Begins the graph and passes these nodes in turn, and says whether each was ready.
pub(crate) fn replay(run: &mut Run, graph: &Graph, path: &[u32]) -> bool
    requires { CanStart graph.now.drawn }
    ensures { run.new.graph ≡ graph.now.drawn }
{
    run.start(graph);
    for node in path {
        if !pass(run, graph, *node) {
            return false;
        }
    }
    true
}

// Exactly these nodes are ready, which are in ascending order.
pub(crate) fn see_ready(rt: &impl Abort, run: &Run, graph: &Graph, want: &[u32])
    requires { graph.now.drawn ≡ run.now.graph }
{
    for node in 0..graph.nodes() {
        same_at(rt, node, run.ready(node), want.contains(&node));
    }
    same(rt, run.least_ready(0), want.first().copied());
}

/// The phase is this one, and so many nodes are out.
pub(crate) fn see_phase(rt: &impl Abort, run: &Run, phase: Phase, out: u32) {
    same(rt, (run.phase(), run.out()), (phase, out));
}

// More turns than a search of the graph takes.
const TURNS: u32 = 4000;

// How many orders lead to the end; None where the search takes too long.
fn count_orders(alloc: Global, run: &mut Run, graph: &Graph) -> Result<Option<u32>, AllocError>
    requires { CanStart graph.now.drawn }
{
    let mut path = Vec::new(alloc);
    let mut from = 0;
    let mut ended: u32 = 0;
    for _ in 0..TURNS {
        replay(run, graph, &path);
        if let Some(node) = run.least_ready(from) {
            path.push(node)?;
            from = 0;
            continue;
        }
        if run.phase() == Phase::Ended {
            ended = ended.saturating_add(1);
        }
        match path.pop() {
            Some(last) => from = last.saturating_add(1),
            None => return Ok(Some(ended)),
        }
    }
    Ok(None)
}

#[test]
fn five_writes_between_commit_and_terminator_go_in_every_order(
    rt: HostRuntime,
) -> Result<(), Fail> {
    let graph = graphs::whole(rt.alloc())?;
    let mut run = Run::open(rt.alloc())?;
    same(&rt, count_orders(rt.alloc(), &mut run, &graph)?, Some(120));
    Ok(())
}

#[test]
fn a_node_is_ready_once_those_that_it_follows_have_ended(rt: HostRuntime) -> Result<(), Fail> {
    let graph = graphs::whole(rt.alloc())?;
    let mut run = Run::open(rt.alloc())?;
    const PATHS: &[(&[u32], Phase, &[u32])] = &[
        (&[], Phase::Before, &[0]),
        (&[0], Phase::Before, &[1]),
        (&[0, 1], Phase::After, &[2, 3, 4, 5, 6]),
        (&[0, 1, 4, 2], Phase::After, &[3, 5, 6]),
        (&[0, 1, 6, 4, 2, 3, 5], Phase::After, &[7]),
        (&[0, 1, 2, 3, 4, 5, 6, 7], Phase::Ended, &[]),
    ];
    for row in PATHS {
        let (path, phase, ready) = *row;
        holds(&rt, replay(&mut run, &graph, path));
        see_phase(&rt, &run, phase, 0);
        see_ready(&rt, &run, &graph, ready);
    }
    Ok(())
}

// Once nodes 0, 1 and 3 of the whole stripe's write have ended, these are the first from each number on.
fn see_least(rt: &impl Abort, run: &Run) {
    const LEAST: &[(u32, Option<u32>)] = &[
        (0, Some(2)),
        (3, Some(4)),
        (6, Some(6)),
        (7, None),
        (u32::MAX, None),
    ];
    for row in LEAST {
        let (from, want) = *row;
        same_at(rt, from, run.least_ready(from), want);
    }
}

#[test]
fn the_first_ready_node_is_sought_from_any_number_on(rt: HostRuntime) -> Result<(), Fail> {
    let graph = graphs::whole(rt.alloc())?;
    let mut run = Run::open(rt.alloc())?;
    same(
        &rt,
        (run.least_ready(0), run.phase()),
        (None, Phase::Undone),
    );
    holds(&rt, replay(&mut run, &graph, &[0, 1, 3]));
    see_least(&rt, &run);
    Ok(())
}

//! Nodes that end bad, writes that are skipped, and a run that is abandoned.
ghost use Rattle.std.specs.Prelude.{◌≡◌, ◌≢◌, ℕ, IsTrue};
ghost use Rattle.eng_one.specs.Control.{mark_of};

use crate::judging::{holds, same, same_at};
use crate::runs::graphs;
use crate::runs::orders::{do_finish, do_fire, do_pass, replay, see_phase, see_ready};
use eng_one::{Outcome, Phase, Run};
use graph_mean::{Graph, Node, Status};
use std::process::Abort;
use std::test::Fail;

// Fires the node, if it is ready.
fn fire(run: &mut Run, graph: &Graph, node: u32) -> bool
    requires { graph.now.drawn ≡ run.old.graph }
    ensures graph { run.new.graph ≡ run.old.graph }
    ensures out { IsTrue result → mark_of run.new node ≡ Status.Out }
    ensures others { (k : ℕ) → k ≢ node → mark_of run.new k ≡ mark_of run.old k }
{
    if node >= graph.nodes() || !run.ready(node) {
        return false;
    }
    run.fire(graph, node);
    true
}

// Fires a node and ends it bad, if it is ready and a read, or a write after the commit.
fn fail(run: &mut Run, graph: &Graph, node: u32) -> bool
    requires { graph.now.drawn ≡ run.old.graph }
    ensures graph { run.new.graph ≡ run.old.graph }
    ensures others { (k : ℕ) → k ≢ node → mark_of run.new k ≡ mark_of run.old k }
{
    if !fire(run, graph, node) || node >= graph.nodes() {
        return false;
    }
    match (graph.node(node), run.phase()) {
        (Node::Rd { .. }, _) | (Node::Wr { .. }, Phase::After) => {
            run.finish(graph, node, Outcome::Bad);
            true
        }
        _ => false,
    }
}

// Skips the node, if it is ready and a write after the commit.
fn skip(run: &mut Run, graph: &Graph, node: u32) -> bool
    requires { graph.now.drawn ≡ run.old.graph }
    ensures { run.new.graph ≡ run.old.graph }
{
    if node >= graph.nodes() || !run.ready(node) {
        return false;
    }
    match (graph.node(node), run.phase()) {
        (Node::Wr { .. }, Phase::After) => {
            run.skip(graph, node);
            true
        }
        _ => false,
    }
}

// Abandons the run, if this node is a read that is still to be fired.
fn abandon(run: &mut Run, graph: &Graph, node: u32) -> bool
    requires { graph.now.drawn ≡ run.old.graph }
    ensures graph { run.new.graph ≡ run.old.graph }
    ensures marks { run.new.marks ≡ run.old.marks }
{
    if node >= graph.nodes() || !run.ready(node) {
        return false;
    }
    match (graph.node(node), run.phase()) {
        (Node::Rd { .. }, Phase::Before) => {
            run.abandon();
            true
        }
        _ => false,
    }
}

#[test]
fn a_bad_read_rolls_back_at_once_where_no_node_is_out(rt: HostRuntime) -> Result<(), Fail> {
    let graph = graphs::small(rt.alloc())?;
    let mut run = Run::open(rt.alloc())?;
    const PATHS: &[(&[u32], u32)] = &[(&[], 0), (&[], 1), (&[1], 0), (&[0], 1)];
    for row in PATHS {
        let (path, bad) = *row;
        holds(&rt, replay(&mut run, &graph, path));
        holds(&rt, fail(&mut run, &graph, bad));
        same_at(&rt, bad, (run.phase(), run.out()), (Phase::Undone, 0));
        see_ready(&rt, &run, &graph, &[]);
    }
    Ok(())
}

#[test]
fn a_bad_read_waits_for_the_node_that_is_out(rt: HostRuntime) -> Result<(), Fail> {
    let graph = graphs::small(rt.alloc())?;
    let mut run = Run::open(rt.alloc())?;
    run.start(&graph);
    do_fire(&rt, &mut run, &graph, 1);
    holds(&rt, fail(&mut run, &graph, 0));
    see_phase(&rt, &run, Phase::RollingBack, 1);
    see_ready(&rt, &run, &graph, &[]);
    do_finish(&rt, &mut run, &graph, 1);
    see_phase(&rt, &run, Phase::Undone, 0);
    see_ready(&rt, &run, &graph, &[]);
    Ok(())
}

// Passes the commit, then fails or skips write 4, which can't be done before.
fn lose_a_write(rt: &impl Abort, run: &mut Run, graph: &Graph, bad: bool)
    requires { graph.now.drawn ≡ run.old.graph }
    ensures { run.new.graph ≡ run.old.graph }
{
    holds(rt, !fail(run, graph, 4));
    holds(rt, !skip(run, graph, 4));
    do_pass(rt, run, graph, 3);
    let lost = if bad {
        fail(run, graph, 4)
    } else {
        skip(run, graph, 4)
    };
    holds(rt, lost);
}

#[test]
fn a_write_may_fail_or_be_skipped_after_the_commit(rt: HostRuntime) -> Result<(), Fail> {
    let graph = graphs::small(rt.alloc())?;
    let mut run = Run::open(rt.alloc())?;
    for bad in [false, true] {
        holds(&rt, replay(&mut run, &graph, &[1, 0, 2]));
        lose_a_write(&rt, &mut run, &graph, bad);
        see_phase(&rt, &run, Phase::After, 0);
        see_ready(&rt, &run, &graph, &[5]);
        do_pass(&rt, &mut run, &graph, 5);
        do_pass(&rt, &mut run, &graph, 6);
        same(&rt, run.phase(), Phase::Ended);
    }
    Ok(())
}

#[test]
fn an_abandoned_run_ends_with_its_last_node_that_is_out(rt: HostRuntime) -> Result<(), Fail> {
    let graph = graphs::small(rt.alloc())?;
    let mut run = Run::open(rt.alloc())?;
    run.start(&graph);
    holds(&rt, abandon(&mut run, &graph, 1));
    same(&rt, run.phase(), Phase::Undone);
    run.start(&graph);
    do_fire(&rt, &mut run, &graph, 0);
    holds(&rt, abandon(&mut run, &graph, 1));
    see_phase(&rt, &run, Phase::RollingBack, 1);
    see_ready(&rt, &run, &graph, &[]);
    do_finish(&rt, &mut run, &graph, 0);
    see_phase(&rt, &run, Phase::Undone, 0);
    Ok(())
}

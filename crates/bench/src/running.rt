//! Runs one graph from its start to its end a number of times, and prints how large it is.
//!
//! It has reads, a commit that follows all of them, and a terminator.
ghost use Rattle.std.specs.Prelude.{◌≡◌};
ghost use Rattle.eng_one.specs.Counts.{CanStart};

use crate::drawing::{can_start, draw};
use blk_plain::limits;
use eng_one::{Outcome, Phase, Run};
use graph_mean::Graph;

// Fires the first node that is ready and ends it; false where none is.
fn step(run: &mut Run, graph: &Graph) -> bool
    requires { graph.now.drawn ≡ run.old.graph }
    ensures { run.new.graph ≡ run.old.graph }
{
    match run.least_ready(0) {
        None => false,
        Some(node) => {
            run.fire(graph, node);
            run.finish(graph, node, Outcome::Good);
            true
        }
    }
}

fn run_once(run: &mut Run, graph: &Graph)
    requires { CanStart graph.now.drawn }
{
    run.start(graph);
    for _ in 0..graph.nodes() {
        if !step(run, graph) {
            return;
        }
    }
}

fn run_often(run: &mut Run, graph: &Graph, times: u32)
    requires { CanStart graph.now.drawn }
{
    for _ in 0..times {
        run_once(run, graph);
    }
}

/// Draws the graph of so many nodes, runs it so often, and prints its size.
pub(crate) fn run(rt: &HostRuntime, nodes: u32, times: u32) -> Option<()> {
    let alloc = rt.alloc();
    if nodes < 2 || nodes > limits::NODES {
        return None;
    }
    let mut graph = Graph::with_room(alloc, limits::NODES, 1, limits::EDGES).ok()?;
    draw(&mut graph, nodes - 2);
    if !can_start(&graph) {
        return None;
    }
    let mut run = Run::open(alloc).ok()?;
    run_often(&mut run, &graph, times);
    let end = if run.phase() == Phase::Ended {
        "ended"
    } else {
        "not run"
    };
    println!(rt;
        "{} nodes, {} antecedents, {}",
        graph.nodes(),
        nodes - 1,
        end
    )
    .ok()
}

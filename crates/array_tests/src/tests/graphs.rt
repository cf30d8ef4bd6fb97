//! Operations by a graph of the file.
ghost use Rattle.std.specs.Prelude.{◌≡◌};
ghost use Rattle.graph_mean.specs.LargeWrite.{in_room, large_bufs, large_front};

use super::closed::{handed, has_calls, history, holds, replied};
use super::driving::run;
use super::judging::same;
use super::{id, level_five, read, write};
use blk_disk::MemDisk;
use eng_array::{Closed, Column, Item, Reply};
use graph_mean::samples::{large_bufs, large_front, large_write};
use graph_mean::{Graph, Node, Refusal};
use lay_plain::Raid5;
use std::alloc::Global;
use std::process::Abort;
use std::test::Fail;

// The two writes and the terminator, but that the write of unit 0 doesn't follow the commit.
fn push_early_back(graph: &mut Graph)
    requires { graph.old ≡ in_room large_front }
{
    graph.push_node(Node::Wr { unit: 0, buf: 0 });
    graph.push_node(Node::Wr { unit: 2, buf: 2 });
    graph.push_ante(2);
    graph.push_node(Node::Trm);
    graph.push_ante(3);
    graph.push_ante(4);
}

// The nodes of a write whose check unit leaves out unit 1.
fn push_wrong_nodes(graph: &mut Graph)
    requires { graph.old ≡ in_room large_bufs }
{
    graph.push_node(Node::Rd { unit: 1, buf: 1 });
    graph.push_node(Node::Xor { to: 2 });
    graph.push_source(0);
    graph.push_ante(0);
    graph.push_node(Node::Cmt);
    graph.push_ante(0);
    graph.push_ante(1);
    graph.push_node(Node::Wr { unit: 0, buf: 0 });
    graph.push_ante(2);
    graph.push_node(Node::Wr { unit: 2, buf: 2 });
    graph.push_ante(2);
    graph.push_node(Node::Trm);
    graph.push_ante(3);
    graph.push_ante(4);
}

// The large write, but that the write of unit 0 doesn't follow the commit.
fn early(alloc: Global) -> Result<Graph, Fail> {
    let mut graph = large_front(alloc)?;
    push_early_back(&mut graph);
    Ok(graph)
}

fn wrong(alloc: Global) -> Result<Graph, Fail> {
    let mut graph = large_bufs(alloc)?;
    push_wrong_nodes(&mut graph);
    Ok(graph)
}

// The operation goes by the first graph of the file.
fn by_graph(item: Item) -> Item {
    match item {
        Item::Run { op, .. } => Item::Run { op, graph: Some(0) },
        Item::Fail { column } => Item::Fail { column },
    }
}

fn ran_by(
    rt: &impl Abort,
    alloc: Global,
    graph: Graph,
    fails: &[&[u32]],
    items: &[Item],
) -> Result<Closed<Raid5, MemDisk>, Fail> {
    let mut setup = level_five(rt, alloc, fails, &[items])?;
    setup.graphs = vec![in alloc; graph]?;
    run(alloc, setup)
}

// The read of unit 1 on device 1 fails. The write goes by the graph of the file, so that it isn't planned anew.
#[test]
fn an_operation_by_a_graph_of_the_file_is_replied_undone(rt: HostRuntime) -> Result<(), Fail> {
    let alloc = rt.alloc();
    let items = [by_graph(write(0, 1, 0xa5)), read(0, 1)];
    let closed = ran_by(&rt, alloc, large_write(alloc)?, &[&[], &[0], &[]], &items)?;
    replied(&rt, &closed, 0, &[Reply::Undone { device: 1 }, Reply::Data]);
    history(&rt, &closed, &[id(0, 1)]);
    same(&rt, closed.columns.get(1).copied(), Some(Column::Dead));
    handed(&rt, &closed, &[0]);
    has_calls(&rt, &closed, 0, &[(0, 64, 1, true)]);
    has_calls(&rt, &closed, 1, &[(0, 64, 1, false)]);
    has_calls(&rt, &closed, 2, &[]);
    Ok(())
}

#[test]
fn an_operation_goes_by_a_graph_of_the_file(rt: HostRuntime) -> Result<(), Fail> {
    let alloc = rt.alloc();
    let items = [by_graph(write(0, 1, 0xa5))];
    let closed = ran_by(&rt, alloc, large_write(alloc)?, &[&[], &[], &[]], &items)?;
    replied(&rt, &closed, 0, &[Reply::Done]);
    holds(&rt, &closed, 0, 64, &[0xa5]);
    holds(&rt, &closed, 1, 64, &[]);
    holds(&rt, &closed, 2, 64, &[0xa5]);
    Ok(())
}

// A write by the graph is refused, and no device has a call.
fn is_refused(rt: &impl Abort, alloc: Global, graph: Graph, refusal: Refusal) -> Result<(), Fail> {
    let items = [by_graph(write(0, 1, 0xa5))];
    let closed = ran_by(rt, alloc, graph, &[&[], &[], &[]], &items)?;
    replied(rt, &closed, 0, &[Reply::Refused(refusal)]);
    history(rt, &closed, &[]);
    for device in 0..3 {
        has_calls(rt, &closed, device, &[]);
    }
    Ok(())
}

#[test]
fn graphs_that_are_not_atomic_are_refused(rt: HostRuntime) -> Result<(), Fail> {
    let alloc = rt.alloc();
    is_refused(&rt, alloc, early(alloc)?, Refusal::EarlyWrite { node: 3 })?;
    let wrong_value = Refusal::WrongValue {
        stripe: 0,
        unit: 2,
        offset: 0,
    };
    is_refused(&rt, alloc, wrong(alloc)?, wrong_value)
}

//! Graphs as tables, drawn and checked.

ghost use Rattle.std.specs.Prelude.{◌<◌, ◌↔◌, IsTrue, IfOk};
ghost use Rattle.graph_mean.specs.Task.{HasUnitBelow};
ghost use Rattle.graph_check.specs.Samples.{HasRoom};

use crate::judging::same_at;
use blk_plain::Span;
use graph_check::{Refusal, Scratch, check, has_many_edges};
use graph_mean::{Buf, Graph, Kind, Memory, Node, Ret, Task};
use lay_core::{Layout, StripeMap, split};
use std::alloc::Global;
use std::process::Abort;
use std::test::Fail;

/// An operation by a graph, the units that are missing, and the refusal, if there is to be one.
#[derive(Clone, Copy)]
pub(super) struct Row<'a> {
    pub name: &'a str,
    pub kind: Kind,
    pub span: (u64, u32),
    pub missing: &'a [Option<u8>],
    /// Each as its stripe, its first sector in the unit, how many there are, and the unit of its new data.
    pub bufs: &'a [(u32, u32, u32, Option<u32>)],
    pub nodes: &'a [Act],
    /// The sources of nodes, each as the node's number and the buffer's.
    pub sources: &'a [(u32, u32)],
    /// Their antecedents, each as the node's number and the antecedent's.
    pub antes: &'a [(u32, u32)],
    pub rets: &'a [Ret],
    pub want: Option<Refusal>,
}

/// A node, as a row names it.
#[derive(Clone, Copy)]
pub(super) enum Act {
    /// A read of a unit into a buffer.
    Rd(u32, u32),
    /// A write to a unit of a buffer.
    Wr(u32, u32),
    /// A sum that makes a buffer.
    Xor(u32),
    /// A commit.
    Cmt,
    /// A terminator.
    Trm,
}

/// A buffer of a stripe that covers these sectors and is filled so.
pub(super) fn buf_of(of: (u32, u32, u32, Option<u32>)) -> Buf {
    let (stripe, from, count, new_of) = of;
    Buf {
        stripe,
        from,
        count,
        new_of,
    }
}

fn node_of(act: Act) -> Node {
    match act {
        Act::Rd(unit, buf) => Node::Rd { unit, buf },
        Act::Wr(unit, buf) => Node::Wr { unit, buf },
        Act::Xor(to) => Node::Xor { to },
        Act::Cmt => Node::Cmt,
        Act::Trm => Node::Trm,
    }
}

/// An empty graph with room for more than an operation may have.
pub(super) fn paper(alloc: Global) -> Result<Graph, Memory>
    ensures { IfOk result (λ g. HasRoom g) }
{
    Graph::with_room(alloc, 2050, 2050, 20000)
}

pub(super) fn add_buf(rt: &impl Abort, graph: &mut Graph, buf: Buf)
    requires { HasRoom graph.old }
    ensures { HasRoom graph.new }
{
    assert!(rt; graph.bufs() < 2050);
    graph.push_buf(buf);
}

// Appends a source to the last node, if it is an exclusive-or.
fn add_source(rt: &impl Abort, graph: &mut Graph, source: u32)
    requires { HasRoom graph.old }
    ensures { HasRoom graph.new }
{
    assert!(rt; !has_many_edges(graph));
    assert!(rt; graph.nodes() > 0);
    if let Node::Xor { .. } = graph.node(graph.nodes() - 1) {
        graph.push_source(source);
    }
}

/// Appends an antecedent to the last node.
pub(super) fn add_ante(rt: &impl Abort, graph: &mut Graph, ante: u32)
    requires { HasRoom graph.old }
    ensures { HasRoom graph.new }
{
    assert!(rt; !has_many_edges(graph));
    assert!(rt; graph.nodes() > 0);
    graph.push_ante(ante);
}

pub(super) fn add_node(rt: &impl Abort, graph: &mut Graph, node: Node)
    requires { HasRoom graph.old }
    ensures { HasRoom graph.new }
{
    assert!(rt; graph.nodes() < 2050);
    graph.push_node(node);
}

// Appends to the last node its part of a row's sources and antecedents.
fn add_edges(rt: &impl Abort, graph: &mut Graph, row: &Row)
    requires { HasRoom graph.old }
    ensures { HasRoom graph.new }
{
    let last = graph.nodes().saturating_sub(1);
    for edge in row.sources {
        if edge.0 == last {
            add_source(rt, graph, edge.1);
        }
    }
    for edge in row.antes {
        if edge.0 == last {
            add_ante(rt, graph, edge.1);
        }
    }
}

fn add_ret(rt: &impl Abort, graph: &mut Graph, ret: Ret)
    requires { HasRoom graph.old }
    ensures { HasRoom graph.new }
{
    assert!(rt; graph.rets() < 2050);
    graph.push_ret(ret);
}

// Draws the graph of a row in place of what was there.
fn draw(rt: &impl Abort, graph: &mut Graph, row: &Row)
    requires { HasRoom graph.old }
    ensures { HasRoom graph.new }
{
    graph.clear();
    for buf in row.bufs {
        add_buf(rt, graph, buf_of(*buf));
    }
    for node in row.nodes {
        add_node(rt, graph, node_of(*node));
        add_edges(rt, graph, row);
    }
    for ret in row.rets {
        add_ret(rt, graph, *ret);
    }
}

/// Whether an operation of this kind is of a stripe of so many units.
pub(crate) fn is_within(kind: Kind, width: u32) -> bool
    ensures { IsTrue result ↔ HasUnitBelow width kind }
{
    match kind {
        Kind::Rebuild { unit } => unit < width,
        Kind::Read | Kind::Write | Kind::Sync => true,
    }
}

pub(super) fn aim<L: Layout>(
    rt: &impl Abort,
    layout: &L,
    task: &mut Task,
    map: &mut StripeMap,
    kind: Kind,
    span: Span,
) {
    assert!(rt; span.count > 0);
    assert!(rt; is_within(kind, layout.width()));
    match split(layout, span, map) {
        Ok(()) => task.set(layout, kind, map),
        Err(fault) => assert!(rt; false, "{fault:?}"),
    }
}

pub(super) fn see_row<L: Layout>(
    rt: &impl Abort,
    layout: &L,
    row: &Row,
    graph: &mut Graph,
    room: &mut Scratch,
    task: &mut Task,
    map: &mut StripeMap,
)
    requires { HasRoom graph.old }
    ensures { HasRoom graph.new }
{
    let (first, count) = row.span;
    aim(rt, layout, task, map, row.kind, Span { first, count });
    draw(rt, graph, row);
    let answer = check(graph, task, row.missing, room).err();
    same_at(rt, row.name, answer, row.want);
}

/// Checks the rows' graphs, one after another, in the same room.
pub(super) fn see_rows<L: Layout>(
    rt: &impl Abort,
    alloc: Global,
    layout: &L,
    rows: &[Row],
) -> Result<(), Fail> {
    let mut graph = paper(alloc)?;
    let mut room = Scratch::open(alloc)?;
    let mut task = Task::with_room(alloc)?;
    let mut map = StripeMap::with_room(alloc)?;
    for row in rows {
        see_row(rt, layout, row, &mut graph, &mut room, &mut task, &mut map);
    }
    Ok(())
}

//! Printing a graph.
ghost use Rattle.std.specs.Prelude.{◌≡◌, ◌<◌, ◌^◌, [], ◌∷◌, ◌++◌, codes, All, IfOk, OnOk, OnErr, IsTrue};
ghost use Rattle.graph_text.specs.Format.{is_name};
ghost use Rattle.graph_text.specs.Canonical.{IsReadAs};
ghost use Rattle.graph_text.specs.FormatForm.{IsInLimits, IsWordBuf, IsWordKind, IsWordNode, IsWordRet, IsWritable, Literal, Number, after_places, buffer_lines, buffer_places, graph_text, kind_places, new_places, node_lines, node_places, number_places, return_lines, return_places, start_places};
ghost use Rattle.graph_text.specs.Printing.{line_text, lines_text, spaced};

use graph_mean::{Buf, Graph, Memory, Node, Ret};
use itoa::Buffer;
use std::alloc::Global;

// Appends a space and a word.
fn push_word(text: &mut Vec<u8>, word: &[u8]) -> Result<(), Memory>
    ensures { OnOk result (text.new.items ≡ text.old.items ++ spaced (Literal word.now ∷ [])) }
{
    text.extend_from_slice(b" ")?;
    text.extend_from_slice(word)?;
    Ok(())
}

// Appends a space and a number.
fn push_number(text: &mut Vec<u8>, number: u32) -> Result<(), Memory>
    ensures { OnOk result (text.new.items ≡ text.old.items ++ spaced (Number number ∷ [])) }
{
    push_word(text, Buffer::new().format(number).as_bytes())
}

// Appends numbers, each behind a space.
fn push_numbers(text: &mut Vec<u8>, numbers: &[u32]) -> Result<(), Memory>
    ensures { OnOk result (text.new.items ≡ text.old.items ++ spaced (number_places numbers.now)) }
{
    for number in numbers {
        push_number(text, *number)?;
    }
    Ok(())
}

// Appends a word and the number behind it.
fn push_field(text: &mut Vec<u8>, word: &[u8], number: u32) -> Result<(), Memory>
    ensures { OnOk result (
        text.new.items ≡ text.old.items
        ++ spaced (Literal word.now ∷ Number number ∷ [])
        ) }
{
    push_word(text, word)?;
    push_number(text, number)
}

// Appends a word and the two numbers behind it.
fn push_fields(text: &mut Vec<u8>, word: &[u8], first: u32, second: u32) -> Result<(), Memory>
    ensures { OnOk result (
        text.new.items ≡ text.old.items
        ++ spaced (Literal word.now ∷ Number first ∷ Number second ∷ [])
        ) }
{
    push_field(text, word, first)?;
    push_number(text, second)
}

// Appends the data unit with whose new data a buffer is filled.
fn push_new(text: &mut Vec<u8>, new_of: Option<u32>) -> Result<(), Memory>
    ensures { OnOk result (text.new.items ≡ text.old.items ++ spaced (new_places new_of)) }
{
    match new_of {
        Some(unit) => push_field(text, b"new", unit),
        None => Ok(()),
    }
}

// Appends what a node does, without its sources.
fn push_kind(text: &mut Vec<u8>, node: Node) -> Result<(), Memory>
    ensures places { OnOk result (text.new.items ≡ text.old.items ++ spaced (kind_places node)) }
    ensures words { IsWordKind node }
{
    match node {
        Node::Rd { unit, buf } => push_fields(text, b"read", unit, buf),
        Node::Wr { unit, buf } => push_fields(text, b"write", unit, buf),
        Node::Xor { to } => push_field(text, b"xor", to),
        Node::Cmt => push_word(text, b"commit"),
        Node::Trm => push_word(text, b"terminate"),
    }
}

// Appends what a node follows.
fn push_after(text: &mut Vec<u8>, antes: &[u32]) -> Result<(), Memory>
    ensures { OnOk result (text.new.items ≡ text.old.items ++ spaced (after_places antes.now)) }
{
    if antes.is_empty() {
        return Ok(());
    }
    push_word(text, b"after")?;
    push_numbers(text, antes)
}

// Appends a graph's first line.
fn push_head(text: &mut Vec<u8>, name: &[u8]) -> Result<(), Memory>
    ensures { OnOk result (text.new.items ≡ text.old.items ++ line_text (start_places name.now)) }
{
    text.extend_from_slice(b"graph")?;
    push_word(text, name)?;
    text.extend_from_slice(b"\n")?;
    Ok(())
}

fn push_buffer(text: &mut Vec<u8>, i: u32, buf: Buf) -> Result<(), Memory>
    ensures line { OnOk result (
        text.new.items ≡ text.old.items
        ++ line_text (buffer_places i buf)
        ) }
    ensures words { IsWordBuf buf }
{
    text.extend_from_slice(b"buffer")?;
    push_number(text, i)?;
    push_field(text, b"stripe", buf.stripe)?;
    push_field(text, b"from", buf.from)?;
    push_field(text, b"count", buf.count)?;
    push_new(text, buf.new_of)?;
    text.extend_from_slice(b"\n")?;
    Ok(())
}

// Appends the line of a node of this number.
fn push_node(
    text: &mut Vec<u8>,
    i: u32,
    node: Node,
    sources: &[u32],
    antes: &[u32],
) -> Result<(), Memory>
    ensures line { OnOk result (
        text.new.items ≡ text.old.items
        ++ line_text
        (node_places i (record { kind = node; sources = sources.now; antes = antes.now }))
        ) }
    ensures kind { IsWordKind node }
    ensures sources { All (λ n. n < 2 ^ 32) sources.now }
    ensures antes { All (λ n. n < 2 ^ 32) antes.now }
{
    push_node_line(text, i, node, sources, antes)
}

// The same; apart, since what is said of the arguments would be shown again at each early exit.
fn push_node_line(
    text: &mut Vec<u8>,
    i: u32,
    node: Node,
    sources: &[u32],
    antes: &[u32],
) -> Result<(), Memory>
    ensures { OnOk result (
        text.new.items ≡ text.old.items
        ++ line_text
        (node_places i (record { kind = node; sources = sources.now; antes = antes.now }))
        ) }
{
    text.extend_from_slice(b"node")?;
    push_number(text, i)?;
    push_kind(text, node)?;
    push_numbers(text, sources)?;
    push_after(text, antes)?;
    text.extend_from_slice(b"\n")?;
    Ok(())
}

fn push_return(text: &mut Vec<u8>, ret: Ret) -> Result<(), Memory>
    ensures line { OnOk result (text.new.items ≡ text.old.items ++ line_text (return_places ret)) }
    ensures words { IsWordRet ret }
{
    text.extend_from_slice(b"return")?;
    push_number(text, ret.unit)?;
    push_number(text, ret.buf)?;
    text.extend_from_slice(b"\n")?;
    Ok(())
}

fn push_buffers(text: &mut Vec<u8>, graph: &Graph) -> Result<(), Memory>
    ensures lines { OnOk result (
        text.new.items ≡ text.old.items
        ++ lines_text (buffer_lines 0 graph.now.drawn.bufs)
        ) }
    ensures words { OnOk result (All IsWordBuf graph.now.drawn.bufs) }
{
    for i in 0..graph.bufs() {
        push_buffer(text, i, graph.buf(i))?;
    }
    Ok(())
}

fn push_nodes(text: &mut Vec<u8>, graph: &Graph) -> Result<(), Memory>
    ensures lines { OnOk result (
        text.new.items ≡ text.old.items
        ++ lines_text (node_lines 0 graph.now.drawn.nodes)
        ) }
    ensures words { OnOk result (All IsWordNode graph.now.drawn.nodes) }
{
    for i in 0..graph.nodes() {
        push_node(text, i, graph.node(i), graph.sources(i), graph.antes(i))?;
    }
    Ok(())
}

fn push_returns(text: &mut Vec<u8>, graph: &Graph) -> Result<(), Memory>
    ensures lines { OnOk result (
        text.new.items ≡ text.old.items
        ++ lines_text (return_lines graph.now.drawn.rets)
        ) }
    ensures words { OnOk result (All IsWordRet graph.now.drawn.rets) }
{
    for i in 0..graph.rets() {
        push_return(text, graph.ret(i))?;
    }
    Ok(())
}

// The canonical text of a named graph.
fn text_of(alloc: Global, name: &[u8], graph: &Graph) -> Result<Vec<u8>, Memory>
    ensures text { IfOk result (
        λ text. text.items ≡ graph_text (record { name = name.now; graph = graph.now.drawn })
        ) }
    ensures writable { OnOk result (IsInLimits graph.now.drawn → IsWritable graph.now.drawn) }
{
    let mut text = Vec::new(alloc);
    push_head(&mut text, name)?;
    push_buffers(&mut text, graph)?;
    push_nodes(&mut text, graph)?;
    push_returns(&mut text, graph)?;
    text.extend_from_slice(b"end\n")?;
    Ok(text)
}

/// Appends the canonical text of a graph of this name: a line for its head, each of its buffers,
/// nodes and returns, and its end, with one space between words, no leading zeros and no comments,
/// `after` only where a node follows another, and byte 10 at each line's end.
///
/// Where the name is one that a graph may have, and the graph has at most 2,048 nodes, buffers and
/// returns each and 16,384 sources and antecedents together, the text is read as this graph.
///
/// The only error is want of memory, and `out` is then as it was before.
#[tactic(auto, using(crate::proofs::CanonicalText::graph_text_read))]
pub fn print_graph(
    alloc: Global,
    name: &[u8],
    graph: &Graph,
    out: &mut Vec<u8>,
) -> Result<(), Memory>
    ensures text { OnOk result (
        out.new.items ≡ out.old.items
        ++ graph_text (record { name = name.now; graph = graph.now.drawn })
        ) }
    ensures writable { OnOk result (IsInLimits graph.now.drawn → IsWritable graph.now.drawn) }
    ensures again { OnOk result (
        IsTrue (is_name name.now) → IsInLimits graph.now.drawn →
        IsReadAs (record { name = name.now; graph = graph.now.drawn })
        ) }
    ensures err { OnErr result (out.new.items ≡ out.old.items) }
{
    let text = text_of(alloc, name, graph)?;
    out.extend_from_slice(&text)?;
    Ok(())
}

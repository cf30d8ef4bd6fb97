//! A node's line, behind its first word.
ghost use Rattle.std.specs.Prelude.{◌≡◌, ◌<◌, [], length, IfOk, IsTrue};
ghost use Rattle.graph_mean.specs.Graph.{is_xor};
ghost use Rattle.raid_text.specs.Seen.{words_left};
ghost use Rattle.graph_mean.specs.declared.graph.Node.TheVariants.{Cmt, Trm};
ghost use Rattle.graph_text.specs.FormatLines.{kind_of, node_of, plain_of};
ghost use Rattle.graph_text.specs.Steps.{read_of, write_of, xor_of};
ghost use Rattle.graph_text.specs.Kept.{GivesNode};

use crate::codes::WORD;
use crate::edges::{antes_in, pass_after, sources_in};
use crate::kept::Edges;
use crate::steps::{next_number, next_pair, next_word, pass_index};
use graph_mean::Node;
use raid_text::Words;

// Keeps the antecedents of a node without sources, and answers the node.
#[tactic(auto, unfolding(crate::specs::FormatLines::plain_of, crate::specs::Kept::firsts))]
fn plain_in(kind: Node, words: &mut Words, edges: &mut Edges) -> Result<Node, u8>
    requires sources { edges.old.sources ≡ [] }
    requires antes { edges.old.antes ≡ [] }
    ensures node { GivesNode result edges.new.sources edges.new.antes
        (plain_of kind (words_left words.old)) }
    ensures sums { IfOk result (λ node. 0 < length edges.new.sources → IsTrue (is_xor node)) }
{
    let more = pass_after(words)?;
    antes_in(more, words, &mut edges.antes)?;
    Ok(kind)
}

// UNIT BUFFER of a read.
#[tactic(auto, unfolding(crate::specs::Steps::read_of))]
fn read_in(words: &mut Words, edges: &mut Edges) -> Result<Node, u8>
    requires sources { edges.old.sources ≡ [] }
    requires antes { edges.old.antes ≡ [] }
    ensures node { GivesNode result edges.new.sources edges.new.antes
        (read_of (words_left words.old)) }
    ensures sums { IfOk result (λ node. 0 < length edges.new.sources → IsTrue (is_xor node)) }
{
    let (unit, buf) = next_pair(words)?;
    plain_in(Node::Rd { unit, buf }, words, edges)
}

// UNIT BUFFER of a write.
#[tactic(auto, unfolding(crate::specs::Steps::write_of))]
fn write_in(words: &mut Words, edges: &mut Edges) -> Result<Node, u8>
    requires sources { edges.old.sources ≡ [] }
    requires antes { edges.old.antes ≡ [] }
    ensures node { GivesNode result edges.new.sources edges.new.antes
        (write_of (words_left words.old)) }
    ensures sums { IfOk result (λ node. 0 < length edges.new.sources → IsTrue (is_xor node)) }
{
    let (unit, buf) = next_pair(words)?;
    plain_in(Node::Wr { unit, buf }, words, edges)
}

// TARGET SOURCE .. of an exclusive-or.
#[tactic(auto, unfolding(crate::specs::Steps::xor_of))]
fn xor_in(words: &mut Words, edges: &mut Edges) -> Result<Node, u8>
    requires sources { edges.old.sources ≡ [] }
    requires antes { edges.old.antes ≡ [] }
    ensures node { GivesNode result edges.new.sources edges.new.antes
        (xor_of (words_left words.old)) }
    ensures sums { IfOk result (λ node. 0 < length edges.new.sources → IsTrue (is_xor node)) }
{
    let to = next_number(words)?;
    let more = sources_in(words, &mut edges.sources)?;
    antes_in(more, words, &mut edges.antes)?;
    Ok(Node::Xor { to })
}

// What stands behind the node's kind.
#[tactic(auto, unfolding(crate::specs::FormatLines::kind_of, crate::specs::Steps::read_of, crate::specs::Steps::write_of, crate::specs::Steps::xor_of))]
fn kind_in(kind: &[u8], words: &mut Words, edges: &mut Edges) -> Result<Node, u8>
    requires sources { edges.old.sources ≡ [] }
    requires antes { edges.old.antes ≡ [] }
    ensures node { GivesNode result edges.new.sources edges.new.antes
        (kind_of kind.now (words_left words.old)) }
    ensures sums { IfOk result (λ node. 0 < length edges.new.sources → IsTrue (is_xor node)) }
{
    if kind == b"read".as_slice() {
        read_in(words, edges)
    } else if kind == b"write".as_slice() {
        write_in(words, edges)
    } else if kind == b"xor".as_slice() {
        xor_in(words, edges)
    } else if kind == b"commit".as_slice() {
        plain_in(Node::Cmt, words, edges)
    } else if kind == b"terminate".as_slice() {
        plain_in(Node::Trm, words, edges)
    } else {
        Err(WORD)
    }
}

/// The node of a line, which has this number, and of its sources and its antecedents the first
/// 16,385 each.
#[tactic(auto, unfolding(crate::specs::FormatLines::node_of))]
pub fn node_in(index: u32, words: &mut Words, edges: &mut Edges) -> Result<Node, u8>
    ensures node { GivesNode result edges.new.sources edges.new.antes
        (node_of index (words_left words.old)) }
    ensures sums { IfOk result (λ node. 0 < length edges.new.sources → IsTrue (is_xor node)) }
{
    pass_index(words, index)?;
    let kind = next_word(words)?;
    edges.clear();
    kind_in(kind, words, edges)
}

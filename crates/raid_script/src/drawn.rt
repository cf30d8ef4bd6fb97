//! Scripts that are drawn from a number.
ghost use Rattle.std.specs.Prelude.{◌≡◌, ◌+◌, ◌*◌, ◌<◌, ◌≤◌, ◌^◌, ◌∷◌, [], map, IfOk};
ghost use Rattle.raid_text.specs.Pattern.{pattern_bytes};
ghost use Rattle.raid_script.specs.Asked.{AreFew, seen};
ghost use Rattle.raid_script.specs.Drawn.{AreApart, drawn};
ghost use Rattle.raid_script.specs.Steps.{share};
ghost use Rattle.raid_script.specs.DrawnParts.{after, item_by, item_from, row_from, seeded, taken, word_of};

use crate::memory::Memory;
use crate::script::Script;
use blk_plain::{Op, Pattern, Span};
use eng_world::Item;
use item_list::Items;
use rand_core::SeedableRng;
use rand_core::utils::NextWord;
use rand_pcg::Lcg64Xsh32;
use std::alloc::{AllocError, Global};

/// The most blocks of an item.
const LONGEST: u64 = 8;

#[tactic(auto, unfolding(crate::specs::DrawnParts::seeded))]
pub(crate) fn words_of(seed: u64) -> Lcg64Xsh32
    ensures { result ≡ seeded seed }
{
    Lcg64Xsh32::seed_from_u64(seed)
}

#[tactic(auto, unfolding(crate::specs::DrawnParts::after, crate::specs::DrawnParts::first_word))]
pub(crate) fn next(words: &mut Lcg64Xsh32) -> u32
    ensures value { result ≡ word_of 0 words.old }
    ensures rest { words.new ≡ after 1 words.old }
{
    words.next_word()
}

fn one_byte(byte: u8) -> Pattern
    ensures { pattern_bytes result ≡ byte ∷ [] }
{
    let mut bytes = [0u8; 32];
    bytes[0] = byte;
    Pattern { len: 1, bytes }
}

// The item that three words make, in a client's share of so many blocks.
#[tactic(auto, unfolding(crate::specs::DrawnParts::item_by))]
fn item_by(client: u32, wide: u64, a: u32, p: u32, q: u32) -> Item
    requires some { 0 < wide }
    requires fits { (client + 1) * wide < 2 ^ 64 }
    ensures { seen result ≡ item_by client wide a p q }
{
    let count = 1 + u64::from(p) % LONGEST.min(wide);
    let first = u64::from(client) * wide + u64::from(a / 4) % (wide - count + 1);
    let span = Span {
        first,
        count: count as u32,
    };
    let op = if a % 3 == 0 {
        Op::Read { span }
    } else {
        Op::Write {
            span,
            pattern: one_byte((q % 256) as u8),
        }
    };
    Item::Run { op, graph: None }
}

// The item that the next three words make.
#[tactic(auto, unfolding(crate::specs::DrawnParts::item_from))]
fn item_from(client: u32, wide: u64, words: &mut Lcg64Xsh32) -> Item
    requires some { 0 < wide }
    requires fits { (client + 1) * wide < 2 ^ 64 }
    ensures item { seen result ≡ item_from client wide words.old }
    ensures rest { words.new ≡ after 3 words.old }
{
    let a = next(words);
    let p = next(words);
    let q = next(words);
    item_by(client, wide, a, p, q)
}

fn row_from(
    alloc: Global,
    client: u32,
    wide: u64,
    ops: u32,
    words: &mut Lcg64Xsh32,
) -> Result<Items, AllocError>
    requires some { 0 < wide }
    requires fits { (client + 1) * wide < 2 ^ 64 }
    ensures items { IfOk result (λ v. map seen v.items ≡ row_from client wide ops words.old) }
    ensures rest { IfOk result (λ _. words.new ≡ after (3 * ops) words.old) }
{
    let mut items = Items::with_capacity(alloc, ops as usize)?;
    for _i in 0..ops {
        items.push(item_from(client, wide, words))?;
    }
    Ok(items)
}

/// The script that a number makes: so many writes and reads of each of so many clients, at most as
/// many as there are blocks, over so many blocks.
///
/// The words are those of PCG-XSH-RR 64/32 (O'Neill, "PCG: A Family of Simple Fast Space-Efficient
/// Statistically Good Algorithms for Random Number Generation", 2014), as `rand_pcg` makes its
/// generator of a number. With c clients each has a share of W = blocks / c blocks, client k that
/// from block k W on. For each client in turn, and for each of its items, three words a, p and q are
/// drawn: the item has 1 + p mod min(8, W) blocks, and begins (a / 4) mod (W - its blocks + 1)
/// blocks into the share; it is a read where a mod 3 is 0, and else a write of the byte q mod 256.
///
/// `Memory` comes where there is none for the items.
pub fn generate(
    alloc: Global,
    seed: u64,
    clients: u32,
    ops: u32,
    blocks: u64,
) -> Result<Script, Memory>
    requires some { 0 < clients }
    requires most { clients ≤ 16 }
    requires ops { ops ≤ 2048 }
    requires blocks { 0 < blocks }
    ensures value { IfOk result (λ s. s.clients ≡ drawn seed clients ops blocks) }
    ensures joins { IfOk result (λ s. s.joins ≡ []) }

    // Each client has so many items, each of 1 to 8 blocks of its own share.
    ensures apart { IfOk result
        (λ s. AreApart (taken clients blocks) ops (share clients blocks) blocks s.clients) }
    ensures few { IfOk result (λ s. AreFew s.clients) }
{
    let taken = u64::from(clients).min(blocks) as u32;
    let wide = blocks / u64::from(taken);
    let mut words = words_of(seed);
    let mut rows = Vec::with_capacity(alloc, taken as usize)?;
    for client in 0..taken {
        rows.push(row_from(alloc, client, wide, ops, &mut words)?)?;
    }
    Ok(Script {
        clients: rows,
        joins: Vec::new(alloc),
    })
}

//! The buffers of new data.
ghost use Rattle.std.specs.Prelude.{◌≡◌, ◌≢◌, ◌≤◌, ◌<◌, ◌+◌, ◌-◌, ◌*◌, ℕ, List, Some, None, length, take, get_or, replicate, slice_index, false};
ghost use Rattle.blk_disk.specs.Disk.{sector_at};
ghost use Rattle.blk_disk.specs.Sectors.{put};
ghost use Rattle.buf_pool.specs.Pool.{IsLease, seat_at};
ghost use Rattle.graph_mean.specs.Graph.{buf_at};
ghost use Rattle.graph_mean.specs.Steps.{Covers};
ghost use Rattle.blk_plain.specs.declared.op.Patches.{Patches};
ghost use Rattle.blk_plain.specs.Plain.{sector_of, zero_sector};
ghost use Rattle.eng_world.specs.Plain.{filled};
ghost use Rattle.eng_world.specs.Planning.{fresh, span_count};
ghost use Rattle.eng_log.specs.Filled.{HasBuffers, FillsAlone, Filled, bytes_of, stored, same_sector};

use crate::patched::fill_patches;
use blk_disk::SECTOR;
use blk_plain::{Op, Patches, Pattern, fill as fill_sector};
use buf_pool::{Lease, Reserve};
use graph_mean::Graph;
use lay_core::Layout;

// So many sectors are set at once, and those behind them copied. A few KiB take longer set than copied: C libraries set more
// than 2 KiB by an instruction that is slow to start.
const AT_ONCE: u32 = 4;

pub(crate) fn written(pattern: &Pattern) -> [u8; SECTOR]
    ensures bytes { (k : ℕ) → k < 512 → slice_index result k ≡ filled pattern.now k }
    ensures sector { result ≡ sector_of pattern.now }
{
    if pattern.len == 1 {
        return [pattern.bytes[0]; SECTOR];
    }
    let mut sector = [0; SECTOR];
    fill_sector(&mut sector, pattern);
    sector
}

pub(crate) fn zeros() -> [u8; SECTOR]
    ensures bytes { (k : ℕ) → k < 512 → slice_index result k ≡ 0 }
    ensures sector { result ≡ zero_sector }
{
    [0; SECTOR]
}

// Whether a graph has a buffer of new data.
fn has_new(graph: &Graph) -> bool
    ensures { result ≡ false → (b : ℕ) → b < length graph.now.drawn.bufs
        → (buf_at graph.now.drawn b).new_of ≡ None }
{
    for b in 0..graph.bufs() {
        if graph.buf(b).new_of.is_some() {
            return true;
        }
    }
    false
}

/// Fills each buffer of new data with what the operation writes to its blocks. The other buffers keep their bytes.
pub fn fill_fresh<L: Layout>(
    layout: &L,
    stripes: &[u32],
    graph: &Graph,
    pool: &mut Reserve,
    lease: &Lease,
    op: &Op,
)
    requires buffers { HasBuffers graph.now.drawn pool.old lease.now }
    requires few { span_count op.now ≤ 8 }
    ensures { Filled (L.shape layout.now) stripes.now graph.now.drawn op.now lease.now pool.old
        pool.new }
{
    if !has_new(graph) {
        return;
    }
    match op {
        Op::Writes { patches } => fill_patches(layout, stripes, graph, pool, lease, patches),
        Op::Write { .. } | Op::Read { .. } | Op::Rebuild { .. } | Op::Sync { .. } => fill_new(
            graph, pool, lease, op,
        ),
    }
}

// Fills each buffer of new data with what an operation writes that writes the same to each of its blocks, or with zeros.
// The other buffers keep their bytes.
fn fill_new(graph: &Graph, pool: &mut Reserve, lease: &Lease, op: &Op)
    requires buffers { HasBuffers graph.now.drawn pool.old lease.now }
    requires same { (patches : Patches) → op.now ≡ Op.Writes patches → ⊥ }
    ensures filled { (b u o block k : ℕ) → (buf_at graph.now.drawn b).new_of ≡ Some u →
        Covers graph.now.drawn b o → k < 512 →
        slice_index
        (sector_at (bytes_of pool.new lease.now b) (o - (buf_at graph.now.drawn b).from))
        k ≡ fresh op.now block k }
    ensures others { (b : ℕ) → b < length graph.now.drawn.bufs →
        (buf_at graph.now.drawn b).new_of ≡ None →
        bytes_of pool.new lease.now b ≡ bytes_of pool.old lease.now b }
    ensures fills { FillsAlone pool.old lease.now pool.new }
    ensures buffers { HasBuffers graph.now.drawn pool.new lease.now }
{
    for b in 0..graph.bufs() {
        fill_one(graph, pool, lease, op, b);
    }
}

// Fills a buffer, if it is one of new data.
fn fill_one(graph: &Graph, pool: &mut Reserve, lease: &Lease, op: &Op, b: u32)
    requires buffers { HasBuffers graph.now.drawn pool.old lease.now }
    requires b { b < length graph.now.drawn.bufs }
    requires same { (patches : Patches) → op.now ≡ Op.Writes patches → ⊥ }
    ensures filled { (u j : ℕ) → (buf_at graph.now.drawn b).new_of ≡ Some u →
        j < (buf_at graph.now.drawn b).count →
        sector_at (bytes_of pool.new lease.now b) j ≡ same_sector op.now }
    ensures old { (buf_at graph.now.drawn b).new_of ≡ None → pool.new ≡ pool.old }
    ensures others { (c : ℕ) → c < length graph.now.drawn.bufs → c ≢ b →
        bytes_of pool.new lease.now c ≡ bytes_of pool.old lease.now c }
    ensures fills { FillsAlone pool.old lease.now pool.new }
{
    let range = graph.buf(b);
    match range.new_of {
        Some(_) => repeat_in(pool, lease, b, op, range.count),
        None => {}
    }
}

// Makes each of the first sectors of a buffer the operation's.
fn repeat_in(pool: &mut Reserve, lease: &Lease, buf: u32, op: &Op, count: u32)
    requires lease { IsLease pool.old lease.now }
    requires buf { buf < length lease.now }
    requires home { (seat_at pool.old.seats (get_or lease.now buf 0)).out ≡ false }
    requires same { (patches : Patches) → op.now ≡ Op.Writes patches → ⊥ }
    requires room { 512 * count ≤ pool.old.unit }
    ensures stored { pool.new ≡
        stored pool.old (get_or lease.now buf 0) (bytes_of pool.new lease.now buf) }
    ensures bytes { (j : ℕ) → j < count →
        sector_at (bytes_of pool.new lease.now buf) j ≡ same_sector op.now }
{
    let mut buffer = pool.take(lease, buf);
    fill_front(buffer.bytes_mut(), op, count);
    pool.put(lease, buf, buffer);
}

/// Puts bytes in the place of those from a sector on.
pub(crate) fn put_at(bytes: &mut [u8], first: usize, from: &[u8])
    requires { 512 * first + length from.now ≤ length bytes.old }
    ensures { bytes.new ≡ put bytes.old first from.now }
{
    let at = SECTOR * first;
    let part = &mut bytes[at..at + from.len()];
    part.copy_from_slice(from);
}

// Makes each byte of the first so many sectors this one.
fn set_front(bytes: &mut [u8], byte: u8, count: u32)
    requires { 512 * count ≤ length bytes.old }
    ensures { (j : ℕ) → j < count → sector_at bytes.new j ≡ replicate 512 byte }
{
    bytes[..SECTOR * count as usize].fill(byte);
}

// Puts the first so many sectors in the place of those from another on.
fn copy_front(bytes: &mut [u8], to: usize, count: usize)
    requires apart { count ≤ to }
    requires room { 512 * to + 512 * count ≤ length bytes.old }
    ensures { bytes.new ≡ put bytes.old to (take (512 * count) bytes.old) }
{
    let (front, back) = bytes.split_at_mut(SECTOR * to);
    back[..SECTOR * count].copy_from_slice(&front[..SECTOR * count]);
}

// Makes each of the first so many sectors this one, which some at their front are. Those that are so already are copied at
// once.
fn spread(bytes: &mut [u8], front: u32, count: u32)
    requires some { 1 ≤ front }
    requires room { 512 * count ≤ length bytes.old }
    ensures { (sector : List ℕ) → ((j : ℕ) → j < front → sector_at bytes.old j ≡ sector) →
        (j : ℕ) → j < count → sector_at bytes.new j ≡ sector }
{
    let count = count as usize;
    let mut done = front as usize;
    while done < count {
        let more = done.min(count - done);
        copy_front(bytes, done, more);
        done += more;
    }
}

// Makes each byte of the first so many sectors this one.
fn set_all(bytes: &mut [u8], byte: u8, count: u32)
    requires { 512 * count ≤ length bytes.old }
    ensures { (j : ℕ) → j < count → sector_at bytes.new j ≡ replicate 512 byte }
{
    if count > 0 {
        let front = count.min(AT_ONCE);
        set_front(bytes, byte, front);
        spread(bytes, front, count);
    }
}

// Makes each of the first so many sectors the pattern's. A pattern of one byte is set in several of them at once.
fn fill_pattern(bytes: &mut [u8], pattern: &Pattern, count: u32)
    requires { 512 * count ≤ length bytes.old }
    ensures { (j : ℕ) → j < count → sector_at bytes.new j ≡ sector_of pattern.now }
{
    if pattern.len == 1 {
        set_all(bytes, pattern.bytes[0], count);
    } else if count > 0 {
        put_at(bytes, 0, &written(pattern));
        spread(bytes, 1, count);
    }
}

// Makes each of the first so many sectors zeros.
fn fill_zeros(bytes: &mut [u8], count: u32)
    requires { 512 * count ≤ length bytes.old }
    ensures { (j : ℕ) → j < count → sector_at bytes.new j ≡ zero_sector }
{
    set_all(bytes, 0, count);
}

// Makes each of the first so many sectors the operation's.
fn fill_front(bytes: &mut [u8], op: &Op, count: u32)
    requires room { 512 * count ≤ length bytes.old }
    requires same { (patches : Patches) → op.now ≡ Op.Writes patches → ⊥ }
    ensures { (j : ℕ) → j < count → sector_at bytes.new j ≡ same_sector op.now }
{
    match op {
        Op::Write { pattern, .. } => fill_pattern(bytes, pattern, count),
        Op::Writes { .. } => unreachable!(),
        Op::Read { .. } | Op::Rebuild { .. } | Op::Sync { .. } => fill_zeros(bytes, count),
    }
}

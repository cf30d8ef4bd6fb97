//! The buffers of new data of an operation that writes another pattern in each of its spans.
ghost use Rattle.std.specs.Prelude.{◌≡◌, ◌≢◌, ◌≤◌, ◌<◌, ◌+◌, ◌-◌, ◌*◌, ◌^◌, ℕ, Some, None, true, length, get_or, slice_index, false};
ghost use Rattle.blk_disk.specs.Disk.{sector_at};
ghost use Rattle.blk_plain.specs.Plain.{is_in, used_of, patched_sector, zero_sector};
ghost use Rattle.buf_pool.specs.Pool.{IsLease, seat_at};
ghost use Rattle.lay_core.specs.Layout.{block_of};
ghost use Rattle.graph_mean.specs.Graph.{buf_at};
ghost use Rattle.graph_mean.specs.Steps.{Covers, stripe_of};
ghost use Rattle.eng_log.specs.Filled.{HasBuffers, FillsAlone, sector_for, bytes_of, stored};

use crate::fill::{put_at, written, zeros};
use blk_disk::SECTOR;
use blk_plain::{Patches, Span};
use buf_pool::{Lease, Reserve};
use graph_mean::Graph;
use lay_core::Layout;

fn is_in(span: Span, block: u64) -> bool
    ensures { result ≡ is_in span block }
{
    span.first <= block && block - span.first < u64::from(span.count)
}

// The sector that is written to a block, or zeros.
fn patch_sector(patches: &Patches, block: u64) -> [u8; SECTOR]
    requires { patches.now.used ≤ 8 }
    ensures { result ≡ patched_sector (used_of patches.now) block zero_sector }
{
    for i in 0..patches.used as usize {
        if is_in(patches.list[i].span, block) {
            return written(&patches.list[i].pattern);
        }
    }
    zeros()
}

// The sectors that are written to so many blocks.
fn patch_bytes(bytes: &mut [u8], patches: &Patches, first: u64, count: u32)
    requires few { patches.now.used ≤ 8 }
    requires first { first < 2 ^ 63 }
    requires room { 512 * count ≤ length bytes.old }
    ensures { (j : ℕ) → j < count
        → sector_at bytes.new j ≡ patched_sector (used_of patches.now) (first + j) zero_sector }
{
    for j in 0..count as usize {
        let sector = patch_sector(patches, first + j as u64);
        put_at(bytes, j, &sector);
    }
}

fn block_at<L: Layout>(layout: &L, stripe: u32, unit: u32, offset: u32) -> u64
    ensures block { result ≡ block_of (L.shape layout.now) stripe unit offset }
    ensures small { result < 2 ^ 63 }
{
    let units = u64::from(layout.width() - layout.checks());
    let sectors = u64::from(layout.unit_sectors());
    (u64::from(stripe) * units + u64::from(unit)) * sectors + u64::from(offset)
}

// The stripe at a position, or 0.
fn stripe_at(stripes: &[u32], position: u32) -> u32
    ensures { result ≡ slice_index stripes.now position }
{
    match stripes.get(position as usize) {
        None => 0,
        Some(stripe) => *stripe,
    }
}

// The first sectors of a buffer become those that are written to so many blocks.
fn patch_in(pool: &mut Reserve, lease: &Lease, buf: u32, patches: &Patches, first: u64, count: u32)
    requires lease { IsLease pool.old lease.now }
    requires buf { buf < length lease.now }
    requires home { (seat_at pool.old.seats (get_or lease.now buf 0)).out ≡ false }
    requires few { patches.now.used ≤ 8 }
    requires first { first < 2 ^ 63 }
    requires room { 512 * count ≤ pool.old.unit }
    ensures stored { pool.new
        ≡ stored pool.old (get_or lease.now buf 0) (bytes_of pool.new lease.now buf) }
    ensures bytes { (j : ℕ) → j < count → sector_at (bytes_of pool.new lease.now buf) j
        ≡ patched_sector (used_of patches.now) (first + j) zero_sector }
{
    let mut buffer = pool.take(lease, buf);
    patch_bytes(buffer.bytes_mut(), patches, first, count);
    pool.put(lease, buf, buffer);
}

// Fills a buffer, if it is one of new data.
fn fill_one<L: Layout>(
    layout: &L,
    stripes: &[u32],
    graph: &Graph,
    pool: &mut Reserve,
    lease: &Lease,
    patches: &Patches,
    b: u32,
)
    requires buffers { HasBuffers graph.now.drawn pool.old lease.now }
    requires b { b < length graph.now.drawn.bufs }
    requires few { patches.now.used ≤ 8 }
    ensures filled { (u j : ℕ) → (buf_at graph.now.drawn b).new_of ≡ Some u →
        j < (buf_at graph.now.drawn b).count →
        sector_at (bytes_of pool.new lease.now b) j
        ≡ sector_for (L.shape layout.now) stripes.now graph.now.drawn (used_of patches.now) b u j }
    ensures old { (buf_at graph.now.drawn b).new_of ≡ None → pool.new ≡ pool.old }
    ensures others { (c : ℕ) → c < length graph.now.drawn.bufs → c ≢ b →
        bytes_of pool.new lease.now c ≡ bytes_of pool.old lease.now c }
    ensures fills { FillsAlone pool.old lease.now pool.new }
{
    let range = graph.buf(b);
    match range.new_of {
        Some(unit) => {
            let first = block_at(layout, stripe_at(stripes, range.stripe), unit, range.from);
            patch_in(pool, lease, b, patches, first, range.count);
        }
        None => {}
    }
}

/// Fills each buffer of new data with what its blocks' patterns fill. The other buffers keep their bytes.
pub(crate) fn fill_patches<L: Layout>(
    layout: &L,
    stripes: &[u32],
    graph: &Graph,
    pool: &mut Reserve,
    lease: &Lease,
    patches: &Patches,
)
    requires buffers { HasBuffers graph.now.drawn pool.old lease.now }
    requires few { patches.now.used ≤ 8 }
    ensures filled { (b u o : ℕ) → (buf_at graph.now.drawn b).new_of ≡ Some u →
        Covers graph.now.drawn b o →
        sector_at (bytes_of pool.new lease.now b) (o - (buf_at graph.now.drawn b).from)
        ≡ patched_sector (used_of patches.now)
        (block_of (L.shape layout.now) (slice_index stripes.now (stripe_of graph.now.drawn b)) u o)
        zero_sector }
    ensures fills { FillsAlone pool.old lease.now pool.new }
{
    for b in 0..graph.bufs() {
        fill_one(layout, stripes, graph, pool, lease, patches, b);
    }
}

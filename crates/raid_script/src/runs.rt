//! Runs of equal sectors.
ghost use Rattle.std.specs.Prelude.{◌≡◌, ◌≢◌, ◌≤◌, ◌<◌, ◌+◌, ◌-◌, ◌*◌, ◌↔◌, ℕ, List, length, take, drop, slice_index_or, is_ok, IsTrue, OnErr};
ghost use Rattle.blk_disk.specs.Disk.{Rose, sector_at};
ghost use Rattle.raid_bay.specs.Sink.{Puts};
ghost use Rattle.raid_script.specs.Runs.{SectorRun, AreRuns, runs};
ghost use Rattle.raid_script.specs.Blocks.{blocks_text};
ghost use Rattle.raid_script.specs.Steps.{block_line, sectors_of};

use crate::repetition::shortest_string;
use blk_disk::Failed;
use put_line::Line;
use raid_bay::Sink;
use sector_store::Store;

// Whether two sectors are equal. Each pair of bytes is looked at, so that the compiler takes many at once.
fn are_equal(one: &[u8; 512], other: &[u8; 512]) -> bool
    ensures { IsTrue result ↔ (one.now ≡ other.now) }
{
    let mut equal = true;
    for k in 0..512 {
        equal &= one[k] == other[k];
    }
    equal
}

/// How many sectors from the first on are equal to it, up to the first other one; 0 where there is none.
pub fn run_length(sectors: &[[u8; 512]]) -> usize
    ensures within { result ≤ length sectors.now }
    ensures some { 0 < length sectors.now → 0 < result }
    ensures equal { (k : ℕ) (d : List ℕ) → k < result →
        slice_index_or sectors.now k d ≡ slice_index_or sectors.now 0 d }
    ensures maximal { (d : List ℕ) → result < length sectors.now →
        slice_index_or sectors.now result d ≢ slice_index_or sectors.now 0 d }
{
    for (i, sector) in sectors.iter().enumerate() {
        if !are_equal(sector, &sectors[0]) {
            return i;
        }
    }
    sectors.len()
}

#[tactic(auto, unfolding(crate::specs::Steps::block_line))]
fn set_block(line: &mut Line, first: u128, count: usize, sector: &[u8; 512])
    ensures { line.new ≡ block_line first count sector.now }
{
    line.clear();
    line.push(b"block ");
    line.push_number(first);
    line.push(b" ");
    line.push_number(count);
    line.push(b" ");
    line.push_hex(shortest_string(sector));
    line.push(b"\n");
}

/// Prints the runs of sectors as [`put_blocks`] does, each in this line, whatever stands in it.
pub fn put_runs<K: Sink>(
    first: u64,
    sectors: &[[u8; 512]],
    line: &mut Line,
    out: &mut K,
) -> Result<(), Failed>
    ensures output { K.tells → Puts (is_ok result)
        (K.output out.old) (blocks_text first sectors.now) (K.output out.new) }
    ensures later { K.faults out.old ≤ K.faults out.new }
    ensures cause { OnErr result (Rose (K.faults out.old) (K.faults out.new)) }
{
    // Of 128 bits, since the sum behind the last block may not fit in 64.
    let mut block = u128::from(first);
    let mut rest = sectors;
    while !rest.is_empty() {
        let count = run_length(rest);
        set_block(line, block, count, &rest[0]);
        line.put(out)?;
        block += count as u128;
        rest = rest.split_at(count).1;
    }
    Ok(())
}

/// Prints a line for each maximal run of equal sectors: `block FIRST COUNT HEX`, with the number
/// of its first block, its sectors, and the shortest string of 1, 2, 4, .., 512 bytes whose
/// repetition is the sector.
///
/// `first` is the number of the first sector's block. `Failed` comes only from the sink.
pub fn put_blocks<K: Sink>(first: u64, sectors: &[[u8; 512]], out: &mut K) -> Result<(), Failed>
    ensures output { K.tells → Puts (is_ok result)
        (K.output out.old) (blocks_text first sectors.now) (K.output out.new) }
    ensures later { K.faults out.old ≤ K.faults out.new }
    ensures cause { OnErr result (Rose (K.faults out.old) (K.faults out.new)) }

    // The runs of the text are the maximal ones, and no other list of runs is that.
    ensures maximal { AreRuns sectors.now (runs sectors.now) }
    ensures only { (others : List SectorRun) → AreRuns sectors.now others
        → others ≡ runs sectors.now }
{
    put_runs(first, sectors, &mut Line::new(), out)
}

/// How many stored sectors from one on are equal to it, up to the first other one, or up to this number.
pub fn stored_run(sectors: &Store, from: usize, to: usize) -> usize
    requires some { from < to }
    requires to { 512 * to ≤ length sectors.now }
    ensures within { result ≤ to - from }
    ensures some { 0 < result }
    ensures equal { (k : ℕ) → k < result
        → sector_at sectors.now (from + k) ≡ sector_at sectors.now from }
    ensures maximal { result < to - from
        → sector_at sectors.now (from + result) ≢ sector_at sectors.now from }
{
    for at in from + 1..to {
        if !sectors.same(at, from) {
            return at - from;
        }
    }
    to - from
}

/// Prints the runs of so many stored sectors from one on as [`put_blocks`] does, each in this line, whatever stands in
/// it.
pub(crate) fn put_stored<K: Sink>(
    first: u64,
    sectors: &Store,
    from: usize,
    count: u32,
    line: &mut Line,
    out: &mut K,
) -> Result<(), Failed>
    requires { 512 * from + 512 * count ≤ length sectors.now }
    ensures output { K.tells → Puts (is_ok result) (K.output out.old)
        (blocks_text first (sectors_of (take (512 * count) (drop (512 * from) sectors.now))))
        (K.output out.new) }
    ensures later { K.faults out.old ≤ K.faults out.new }
    ensures cause { OnErr result (Rose (K.faults out.old) (K.faults out.new)) }
{
    // A call of the store makes known that its numbers are small.
    let _count = sectors.len();
    // Of 128 bits, since the sum behind the last block may not fit in 64.
    let mut block = u128::from(first);
    let mut at = from;
    let mut left = count as usize;
    while left > 0 {
        let run = stored_run(sectors, at, at + left);
        set_block(line, block, run, sectors.sector(at));
        line.put(out)?;
        block += run as u128;
        at += run;
        left -= run;
    }
    Ok(())
}

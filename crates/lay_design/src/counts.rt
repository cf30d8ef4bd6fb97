//! How often objects stand together, counted in one pass over the tuples.
ghost use Rattle.std.specs.Prelude.{◌≡◌, ◌≢◌, ◌<◌, ◌≤◌, ◌+◌, ◌*◌, ◌==◌, ◌&&◌, ℕ, All, length, nat_lt, not, IfOk, IfErr};
ghost use Rattle.lay_design.specs.Counting.{IsFirst};
ghost use Rattle.lay_design.specs.Blocks.{entry, times, IsLow, IsFirstSpot};
ghost use Rattle.lay_design.specs.Given.{AreFit, AreCounted};

use crate::fault::DesignFault;
use crate::spot::Spot;
use crate::tuples::Tuples;
use std::alloc::Global;

// Counts the objects of a tuple as standing with x.
fn count_with(counts: &mut [u32], x: u32, objects: &[u32])
    requires length { length counts.old ≡ 1024 }
    requires x { x < 32 }
    requires below { All (λ y. y < 32) objects.now }
    requires short { length objects.now ≤ 32 }
    requires low { (y : ℕ) → y < 32 → entry counts.old x y ≤ 2000000 }
    ensures length { length counts.new ≡ 1024 }
    ensures counted { (y : ℕ) → y < 32
        → entry counts.new x y ≡ entry counts.old x y + times y objects.now }
    ensures others { (z y : ℕ) → z ≢ x → y < 32 → entry counts.new z y ≡ entry counts.old z y }
{
    for y in objects {
        counts[(x * 32 + *y) as usize] += 1;
    }
}

// Counts each two objects of a tuple, and each object with itself.
fn count_tuple(counts: &mut [u32], objects: &[u32])
    requires length { length counts.old ≡ 1024 }
    requires below { All (λ y. y < 32) objects.now }
    requires short { length objects.now ≤ 32 }
    requires low { IsLow counts.old }
    ensures length { length counts.new ≡ 1024 }
    ensures counted { (x y : ℕ) → x < 32 → y < 32
        → entry counts.new x y ≡ entry counts.old x y + times x objects.now * times y objects.now }
{
    for x in objects {
        count_with(counts, *x, objects);
    }
}

// Counts each two objects of each tuple in a table of zeros.
fn count_tuples(counts: &mut [u32], tuples: Tuples)
    requires length { length counts.old ≡ 1024 }
    requires zeros { (x y : ℕ) → x < 32 → y < 32 → entry counts.old x y ≡ 0 }
    requires fit { AreFit tuples }
    ensures length { length counts.new ≡ 1024 }
    ensures counted { AreCounted tuples.entry.count tuples.entry.width tuples.entry.objects.now
        counts.new }
{
    for number in 0..tuples.count {
        count_tuple(counts, tuples.at(number));
    }
}

/// A table with 32 counts for each of 32 objects: in how many tuples each two stand together, and
/// beside itself in how many an object stands.
pub(crate) fn count_pairs(alloc: Global, tuples: Tuples) -> Result<Vec<u32>, DesignFault>
    requires { AreFit tuples }
    ensures length { IfOk result (λ counts. length counts.items ≡ 1024) }
    ensures counted { IfOk result (λ counts.
        AreCounted tuples.entry.count tuples.entry.width tuples.entry.objects.now counts.items) }
    ensures memory { IfErr result (λ fault. fault ≡ DesignFault.Memory) }
{
    let mut counts = match vec![in alloc; 0; 1024] {
        Ok(counts) => counts,
        Err(_) => return Err(DesignFault::Memory),
    };
    count_tuples(counts.as_mut_slice(), tuples);
    Ok(counts)
}

/// The first of v objects that doesn't stand in so many tuples.
pub(crate) fn first_stray(counts: &[u32], v: u32, r: u32) -> Option<u32>
    requires length { length counts.now ≡ 1024 }
    requires few { v ≤ 32 }
    ensures { IsFirst (λ x. not (entry counts.now x x == r)) v result }
{
    for x in 0..v {
        if counts[(x * 32 + x) as usize] != r {
            return Some(x);
        }
    }
    None
}

// The first object behind x that doesn't stand with it in so many tuples.
fn parted_from(counts: &[u32], v: u32, lambda: u32, x: u32) -> Option<u32>
    requires length { length counts.now ≡ 1024 }
    requires few { v ≤ 32 }
    requires x { x < v }
    ensures { IsFirst (λ y. nat_lt x y && not (entry counts.now x y == lambda)) v result }
{
    for y in 0..v {
        if x < y && counts[(x * 32 + y) as usize] != lambda {
            return Some(y);
        }
    }
    None
}

/// The first two of v objects, the lesser first, that don't stand together in so many tuples.
pub(crate) fn first_parted(counts: &[u32], v: u32, lambda: u32) -> Option<Spot>
    requires length { length counts.now ≡ 1024 }
    requires few { v ≤ 32 }
    ensures { IsFirstSpot (λ x y. nat_lt x y && not (entry counts.now x y == lambda)) v v result }
{
    for row in 0..v {
        if let Some(place) = parted_from(counts, v, lambda, row) {
            return Some(Spot { row, place });
        }
    }
    None
}

//! Sums of the units of a stripe that stand in the windows.
ghost use Rattle.std.specs.Prelude.{◌≡◌, ◌≢◌, ◌<◌, ◌≤◌, ◌+◌, ◌↔◌, ℕ, length, slice_index, bit_xor, IsTrue, MatchBool};
ghost use Rattle.raid_recon.specs.Sums.{places_sum};

use xor_lanes::xor_into;

// Makes each byte the sum of those of two slices that are as long.
fn sum_two(to: &mut [u8], one: &[u8], two: &[u8])
    requires one { length one.now ≡ length to.old }
    requires two { length two.now ≡ length to.old }
    ensures sum { (k : ℕ) → k < length to.old → slice_index to.new k
        ≡ bit_xor (slice_index two.now k) (slice_index one.now k) }
    ensures long { length to.new ≡ length to.old }
{
    for k in 0..to.len() {
        to[k] = two[k] ^ one[k];
    }
}

// Makes each byte the sum of those of four slices that are as long.
fn sum_four(to: &mut [u8], one: &[u8], two: &[u8], three: &[u8], four: &[u8])
    requires one { length one.now ≡ length to.old }
    requires two { length two.now ≡ length to.old }
    requires three { length three.now ≡ length to.old }
    requires four { length four.now ≡ length to.old }
    ensures sum { (k : ℕ) → k < length to.old → slice_index to.new k
        ≡ bit_xor (slice_index four.now k) (bit_xor (slice_index three.now k)
        (bit_xor (slice_index two.now k) (slice_index one.now k))) }
    ensures long { length to.new ≡ length to.old }
{
    for k in 0..to.len() {
        to[k] = four[k] ^ (three[k] ^ (two[k] ^ one[k]));
    }
}

// Makes `sum` the sum of the units that stand from the first four places on.
fn sum_first_four(sum: &mut [u8], ahead: &[u8], places: &[usize])
    requires few { 4 ≤ length places.now }
    requires inside { (i : ℕ) → i < 4
        → slice_index places.now i + length sum.old ≤ length ahead.now }
    ensures sums { (j : ℕ) → j < length sum.old
        → slice_index sum.new j ≡ places_sum ahead.now places.now 4 j }
    ensures long { length sum.new ≡ length sum.old }
{
    let bytes = sum.len();
    let one = places[0];
    let two = places[1];
    let three = places[2];
    let four = places[3];
    sum_four(
        sum,
        &ahead[one..one + bytes],
        &ahead[two..two + bytes],
        &ahead[three..three + bytes],
        &ahead[four..four + bytes],
    );
}

// The same of the first two places.
fn sum_first_two(sum: &mut [u8], ahead: &[u8], places: &[usize])
    requires few { 2 ≤ length places.now }
    requires inside { (i : ℕ) → i < 2
        → slice_index places.now i + length sum.old ≤ length ahead.now }
    ensures sums { (j : ℕ) → j < length sum.old
        → slice_index sum.new j ≡ places_sum ahead.now places.now 2 j }
    ensures long { length sum.new ≡ length sum.old }
{
    let bytes = sum.len();
    let one = places[0];
    let two = places[1];
    sum_two(sum, &ahead[one..one + bytes], &ahead[two..two + bytes]);
}

// Makes the bytes those that stand from there on.
fn copy_unit(sum: &mut [u8], ahead: &[u8], first: usize)
    requires { first + length sum.old ≤ length ahead.now }
    ensures bytes { (j : ℕ) → j < length sum.old
        → slice_index sum.new j ≡ slice_index ahead.now (first + j) }
    ensures long { length sum.new ≡ length sum.old }
{
    let bytes = sum.len();
    sum.copy_from_slice(&ahead[first..first + bytes]);
}

// Adds those that stand from there on.
fn add_unit(sum: &mut [u8], ahead: &[u8], first: usize)
    requires { first + length sum.old ≤ length ahead.now }
    ensures bytes { (j : ℕ) → j < length sum.old → slice_index sum.new j
        ≡ bit_xor (slice_index sum.old j) (slice_index ahead.now (first + j)) }
    ensures long { length sum.new ≡ length sum.old }
{
    let bytes = sum.len();
    xor_into(sum, &ahead[first..first + bytes]);
}

// Makes `sum` the sum of the units that stand from the first places on, as many as are summed in one pass: then
// it is written once, and not read. How many these are.
fn begin_sum(sum: &mut [u8], ahead: &[u8], places: &[usize], count: usize) -> usize
    requires some { 1 ≤ count }
    requires few { count ≤ length places.now }
    requires inside { (i : ℕ) → i < count
        → slice_index places.now i + length sum.old ≤ length ahead.now }
    ensures within { result ≤ count }
    ensures sums { (j : ℕ) → j < length sum.old
        → slice_index sum.new j ≡ places_sum ahead.now places.now result j }
    ensures long { length sum.new ≡ length sum.old }
{
    if count >= 4 {
        sum_first_four(sum, ahead, places);
        return 4;
    }
    if count >= 2 {
        sum_first_two(sum, ahead, places);
        return 2;
    }
    copy_unit(sum, ahead, places[0]);
    1
}

/// Makes `sum` the sum of the units that stand from the first places on, so many.
pub(crate) fn sum_places(sum: &mut [u8], ahead: &[u8], places: &[usize], count: usize)
    requires some { 1 ≤ count }
    requires few { count ≤ length places.now }
    requires inside { (i : ℕ) → i < count
        → slice_index places.now i + length sum.old ≤ length ahead.now }
    ensures sums { (j : ℕ) → j < length sum.old
        → slice_index sum.new j ≡ places_sum ahead.now places.now count j }
    ensures long { length sum.new ≡ length sum.old }
{
    let begun = begin_sum(sum, ahead, places, count);
    for i in begun..count {
        add_unit(sum, ahead, places[i]);
    }
}

// Whether two units are equal. Each pair of bytes is looked at, so that the compiler takes many at once.
fn are_equal(one: &[u8], other: &[u8]) -> bool
    requires { length other.now ≡ length one.now }
    ensures { IsTrue result ↔ (one.now ≡ other.now) }
{
    let mut equal = true;
    for k in 0..one.len() {
        equal &= one[k] == other[k];
    }
    equal
}

/// Whether two units differ.
pub(crate) fn differ(one: &[u8], other: &[u8]) -> bool
    requires { length other.now ≡ length one.now }
    ensures { MatchBool result
        ((j : ℕ) × (j < length one.now) × (slice_index one.now j ≢ slice_index other.now j))
        ((j : ℕ) → slice_index one.now j ≡ slice_index other.now j) }
{
    !are_equal(one, other)
}

// Makes each byte the sum of those of four slices that are as long, and answers whether the fifth is that sum.
fn sum_and_compare(
    to: &mut [u8],
    one: &[u8],
    two: &[u8],
    three: &[u8],
    four: &[u8],
    check: &[u8],
) -> bool
    requires one { length one.now ≡ length to.old }
    requires two { length two.now ≡ length to.old }
    requires three { length three.now ≡ length to.old }
    requires four { length four.now ≡ length to.old }
    requires check { length check.now ≡ length to.old }
    ensures sum { (k : ℕ) → k < length to.old → slice_index to.new k
        ≡ bit_xor (slice_index four.now k) (bit_xor (slice_index three.now k)
        (bit_xor (slice_index two.now k) (slice_index one.now k))) }
    ensures equal { IsTrue result ↔ ((k : ℕ) → k < length to.old
        → bit_xor (slice_index four.now k) (bit_xor (slice_index three.now k)
        (bit_xor (slice_index two.now k) (slice_index one.now k))) ≡ slice_index check.now k) }
    ensures long { length to.new ≡ length to.old }
{
    let mut equal = true;
    for k in 0..to.len() {
        let sum = four[k] ^ (three[k] ^ (two[k] ^ one[k]));
        to[k] = sum;
        equal &= sum == check[k];
    }
    equal
}

// Makes `sum` the sum of the units that stand from the first four places on, and answers whether the one that stands
// from the fifth on is something else.
fn four_differ(sum: &mut [u8], ahead: &[u8], places: &[usize]) -> bool
    requires few { 5 ≤ length places.now }
    requires inside { (i : ℕ) → i ≤ 4
        → slice_index places.now i + length sum.old ≤ length ahead.now }
    ensures sums { (j : ℕ) → j < length sum.old
        → slice_index sum.new j ≡ places_sum ahead.now places.now 4 j }
    ensures differs { MatchBool result
        ((j : ℕ) × (j < length sum.new)
        × (slice_index sum.new j ≢ slice_index ahead.now (slice_index places.now 4 + j)))
        ((j : ℕ) → j < length sum.new
        → slice_index sum.new j ≡ slice_index ahead.now (slice_index places.now 4 + j)) }
    ensures long { length sum.new ≡ length sum.old }
{
    let bytes = sum.len();
    let one = places[0];
    let two = places[1];
    let three = places[2];
    let four = places[3];
    let check = places[4];
    !sum_and_compare(
        sum,
        &ahead[one..one + bytes],
        &ahead[two..two + bytes],
        &ahead[three..three + bytes],
        &ahead[four..four + bytes],
        &ahead[check..check + bytes],
    )
}

/// Makes `sum` the sum of the units that stand from the first places on, so many, and answers whether the one that
/// stands from the next place on is something else.
pub(crate) fn sum_differs(sum: &mut [u8], ahead: &[u8], places: &[usize], count: usize) -> bool
    requires some { 1 ≤ count }
    requires few { count < length places.now }
    requires inside { (i : ℕ) → i ≤ count
        → slice_index places.now i + length sum.old ≤ length ahead.now }
    ensures sums { (j : ℕ) → j < length sum.old
        → slice_index sum.new j ≡ places_sum ahead.now places.now count j }
    ensures differs { MatchBool result
        ((j : ℕ) × (j < length sum.new)
        × (slice_index sum.new j ≢ slice_index ahead.now (slice_index places.now count + j)))
        ((j : ℕ) → j < length sum.new
        → slice_index sum.new j ≡ slice_index ahead.now (slice_index places.now count + j)) }
    ensures long { length sum.new ≡ length sum.old }
{
    if count == 4 {
        return four_differ(sum, ahead, places);
    }
    sum_places(sum, ahead, places, count);
    let check = places[count];
    differ(sum, &ahead[check..check + sum.len()])
}

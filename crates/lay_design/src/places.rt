//! Places of tuples that have no object below v, or one for the second time.
ghost use Rattle.std.specs.Prelude.{◌≡◌, ◌<◌, ◌*◌, length};
ghost use Rattle.lay_design.specs.Counting.{IsFirst};
ghost use Rattle.lay_design.specs.Blocks.{tuple, is_outside, is_repeated, IsFirstSpot};

use crate::spot::Spot;
use crate::tuples::Tuples;

// The first place that has no object below v.
fn outside_in(objects: &[u32], width: u32, v: u32) -> Option<u32>
    requires { length objects.now ≡ width }
    ensures { IsFirst (is_outside v objects.now) width result }
{
    for place in 0..width {
        if v <= objects[place as usize] {
            return Some(place);
        }
    }
    None
}

// Whether the object in a place stands in an earlier one too.
fn is_repeated(objects: &[u32], place: u32) -> bool
    requires { place < length objects.now }
    ensures { result ≡ is_repeated objects.now place }
{
    let object = objects[place as usize];
    objects[..place as usize]
        .iter()
        .any(|other| *other == object)
}

// The first place that has the object of an earlier one.
fn repeated_in(objects: &[u32], width: u32) -> Option<u32>
    requires { length objects.now ≡ width }
    ensures { IsFirst (is_repeated objects.now) width result }
{
    for place in 0..width {
        if is_repeated(objects, place) {
            return Some(place);
        }
    }
    None
}

/// The first place that has no object below v.
pub(crate) fn first_outside(tuples: Tuples, v: u32) -> Option<Spot>
    requires { length tuples.objects.now ≡ tuples.count * tuples.width }
    ensures { IsFirstSpot (λ t. is_outside v (tuple tuples.entry.width tuples.entry.objects.now t))
        tuples.entry.count tuples.entry.width result }
{
    for row in 0..tuples.count {
        if let Some(place) = outside_in(tuples.at(row), tuples.width, v) {
            return Some(Spot { row, place });
        }
    }
    None
}

/// The first place that has the object of an earlier one of its tuple.
pub(crate) fn first_repeated(tuples: Tuples) -> Option<Spot>
    requires { length tuples.objects.now ≡ tuples.count * tuples.width }
    ensures { IsFirstSpot (λ t. is_repeated (tuple tuples.entry.width tuples.entry.objects.now t))
        tuples.entry.count tuples.entry.width result }
{
    for row in 0..tuples.count {
        if let Some(place) = repeated_in(tuples.at(row), tuples.width) {
            return Some(Spot { row, place });
        }
    }
    None
}

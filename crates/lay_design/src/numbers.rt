//! The numbers of a design.
ghost use Rattle.std.specs.Prelude.{◌↔◌, IsTrue};
ghost use Rattle.lay_design.specs.Design.{AreNumbers};
ghost use Rattle.lay_design.specs.Given.{blocks_of};

/// So many tuples of so many of the objects 0 to `objects` - 1, of which each is to stand in
/// `degree` tuples, and each two together in `together`.
#[derive(Clone, Copy)]
pub(crate) struct Numbers {
    pub(crate) tuples: u32,
    pub(crate) objects: u32,
    pub(crate) width: u32,
    pub(crate) degree: u32,
    pub(crate) together: u32,
}

/// Whether they are within the limits, and fit one another and the list.
pub(crate) fn are_numbers(numbers: Numbers, list: &[u32]) -> bool
    ensures { IsTrue result ↔ AreNumbers (blocks_of numbers list.now) }
{
    let Numbers {
        tuples,
        objects,
        width,
        degree,
        together,
    } = numbers;
    if !(2..=32).contains(&objects) || !(2..=objects).contains(&width) {
        return false;
    }
    if !(1..=4_096).contains(&tuples) {
        return false;
    }
    let places = u64::from(tuples) * u64::from(width);
    list.len() as u64 == places
        && places == u64::from(objects) * u64::from(degree)
        && u64::from(degree) * u64::from(width - 1) == u64::from(together) * u64::from(objects - 1)
}

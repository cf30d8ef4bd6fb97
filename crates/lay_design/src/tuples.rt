//! Tuples of objects, one after the other.
ghost use Rattle.std.specs.Prelude.{◌≡◌, ◌<◌, ◌*◌, length};
ghost use Rattle.lay_design.specs.Blocks.{tuple};

/// So many tuples of so many objects each, one after the other.
#[derive(Clone, Copy)]
pub(crate) struct Tuples<'a> {
    pub(crate) count: u32,
    pub(crate) width: u32,
    pub(crate) objects: &'a [u32],
}

impl<'a> Tuples<'a> {
    /// The objects of a tuple.
    pub(crate) fn at(self, number: u32) -> &'a [u32]
        requires long { length self.objects.now ≡ self.count * self.width }
        requires number { number < self.count }
        ensures objects { result.now ≡ tuple self.entry.width self.entry.objects.now number }
        ensures length { length result.now ≡ self.entry.width }
    {
        &self.objects[number as usize * self.width as usize..][..self.width as usize]
    }
}

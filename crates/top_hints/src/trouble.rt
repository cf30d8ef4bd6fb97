//! What the system refused.

/// Something that the system refused.
#[derive(Clone, Copy)]
pub struct Trouble<'a> {
    /// What could not be had or written to.
    pub name: &'a str,
    /// What the system said.
    pub cause: &'a str,
}

//! How a rebuild starts.
ghost use Rattle.std.specs.Prelude.{◌≡◌};
ghost use Rattle.eng_array.specs.Starts.{column_of};

/// How the rebuild of a column starts: of a dead one onto a device that is in no column, or into the
/// spare places of the other columns; or of the one that is filling from where it stands.
#[derive(Clone, Copy)]
pub enum Start {
    /// Onto this device, so many stripes at most.
    Fill { column: u32, device: u32, most: u32 },
    /// On from the stripes that are done, so many more at most.
    Resume { column: u32, most: u32 },
    /// Into the spare places.
    Spread { column: u32 },
}

impl Start {
    /// The column that it rebuilds.
    pub fn column(self) -> u32
        ensures { result ≡ column_of self }
    {
        match self {
            Start::Fill { column, .. } | Start::Resume { column, .. } | Start::Spread { column } =>
                column,
        }
    }
}

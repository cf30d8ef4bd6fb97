//! How a call of the program ends.
ghost use Rattle.std.specs.Prelude.{◌≡◌};

use eng_cols::Loss;
use raid_bay::Name;

/// How a call of the program ends.
#[derive(Drop)]
pub enum Status {
    /// None of the others.
    Ok,
    /// The words aren't a command: 0 where they aren't of the form of one, 1 where there isn't
    /// exactly one action, 2 for an option without its action, 3 for a value that isn't allowed.
    Usage(u8),
    /// The configuration isn't in its form: the line, counted from 1, and the code.
    Conf(u32, u8),
    /// The script isn't in its form: the line, counted from 1, and the code. Line 0 with code 8 is
    /// a trace that would be too long.
    Script(u32, u8),
    /// The file of graphs isn't in its form: the line, counted from 1, and the code.
    GraphText(u32, u8),
    /// The bay failed.
    BayFault,
    /// The bay has no text or disk of that name.
    NoFile(Name),
    /// The output failed, after a front of it was written.
    SinkFault,
    /// The array is lost: the columns of the first two missing units of the least stripe that lacks
    /// two, the lower column first; where there is no check unit, the column of its first one twice.
    Lost {
        first: u32,
        second: u32,
        stripe: u32,
    },
    /// The label of that column is refused, for this code: a field's value, and the one wanted.
    Label {
        column: u32,
        code: u8,
        found: u32,
        wanted: u32,
    },
    /// The disk of that column has fewer sectors than it needs.
    Small {
        column: u32,
        has: u64,
        needs: u64,
    },
    /// So many stripes were found whose units don't sum to zero.
    NotInSync(u64),
    /// There is no spare to rebuild onto.
    NoSpare,
    /// The text of that name is longer than a text may be.
    LongText(Name),
    /// No column is being rebuilt that could be gone on with.
    NoRebuild,
    /// That column is being rebuilt, and no second one can be.
    Rebuilding(u32),
    /// There was no memory.
    Memory,
}

impl Status {
    ghost use Rattle.top_status.specs.Status.{exit_number, status_of_loss};

    /// The number that the program ends with.
    pub fn number(&self) -> u8
        ensures { result ≡ exit_number self.now }
    {
        match self {
            Status::Ok => 0,
            Status::Usage(_) => 1,
            Status::Conf(_, _) => 2,
            Status::Script(_, _) => 3,
            Status::GraphText(_, _) => 4,
            Status::BayFault => 5,
            Status::NoFile(_) => 6,
            Status::SinkFault => 7,
            Status::Lost { .. } => 8,
            Status::Label { .. } => 9,
            Status::Small { .. } => 10,
            Status::NotInSync(_) => 11,
            Status::NoSpare => 12,
            Status::LongText(_) => 13,
            Status::NoRebuild => 14,
            Status::Rebuilding(_) => 15,
            Status::Memory => 70,
        }
    }

    /// How a run ends in which the array was lost by this, or wasn't.
    pub fn of_loss(lost: Option<Loss>) -> Status
        ensures { result ≡ status_of_loss lost }
    {
        match lost {
            None => Status::Ok,
            Some(loss) => Status::Lost {
                first: loss.first,
                second: loss.second,
                stripe: loss.stripe,
            },
        }
    }
}

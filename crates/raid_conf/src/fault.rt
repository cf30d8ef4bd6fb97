//! Why a configuration wasn't read.
ghost use Rattle.std.specs.Prelude.{◌≡◌};
ghost use Rattle.raid_conf.specs.declared.fault.ConfFault.TheVariants.{At as Refused, Memory};

use std::alloc::{AllocError, AllocFailed};
use text_steps::At;
use thiserror::Error;

/// Why a text wasn't read as a configuration.
#[derive(Clone, Copy, Debug, PartialEq, Eq, Error)]
pub enum ConfFault {
    /// The first line that can't be read, numbered from 1, and why. Its words are judged from left
    /// to right. Where the text ends too early the line is the one behind the last. The codes are
    ///
    /// 1. a word isn't the one that the form has there, or the line has too few or too many words,
    ///    or a byte that no word has;
    /// 2. a word is no number where the form has one, or the rows aren't 1, the columns 1 to 32, the
    ///    spares up to 8, the sectors of a unit 1 to 128;
    /// 3. a section is unknown, repeated, out of order or missing;
    /// 4. the level can't have so many columns, or the design's objects aren't as many;
    /// 5. there are more or fewer disks than columns;
    /// 6. there are more or fewer spares than the array's line says;
    /// 7. a name stands already among disks and spares, or is longer than 255 bytes, or is `absent`
    ///    as a spare;
    /// 8. the level isn't one;
    /// 9. the second or third number of the layout isn't 1;
    /// 10. the queue isn't `fifo`;
    /// 11. levels T and D have no design, or a tuple doesn't have k objects, or there are too few
    ///     tuples;
    /// 12. the numbers and tuples are no block design, or its tuples have fewer than three objects
    ///     at level D; the line is the design's first.
    #[error("line {line} of the configuration is refused by code {code}")]
    At { line: u32, code: u8 },
    /// There was no memory for the names or the design.
    #[error("no memory for the names and the design of the configuration")]
    Memory,
}

impl From<At> for ConfFault {
    ghost from_gives = { λ at e. e ≡ Refused at.line at.code };

    fn from(at: At) -> ConfFault {
        ConfFault::At {
            line: at.line,
            code: at.code,
        }
    }
}

impl From<AllocError> for ConfFault {
    ghost from_gives = { λ _ e. e ≡ Memory };

    fn from(_: AllocError) -> ConfFault {
        ConfFault::Memory
    }
}

impl<T: Drop> From<AllocFailed<T>> for ConfFault {
    ghost from_gives = { λ _ e. e ≡ Memory };

    fn from(_: AllocFailed<T>) -> ConfFault {
        ConfFault::Memory
    }
}

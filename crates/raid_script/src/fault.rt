//! Why a script wasn't read.
ghost use Rattle.std.specs.Prelude.{◌≡◌};
ghost use Rattle.raid_script.specs.declared.fault.ScriptFault.TheVariants.{Memory};

use std::alloc::{AllocError, AllocFailed};
use thiserror::Error;

/// Why a text wasn't read as a script.
#[derive(Clone, Copy, Debug, PartialEq, Eq, Error)]
pub enum ScriptFault {
    /// The first line that can't be read, numbered from 1, and why. Its words are judged from left
    /// to right. The codes are
    ///
    /// 1. a word isn't the one that the form has there, or the line has too few or too many words,
    ///    or a byte that no word has;
    /// 2. a word is no number where the form has one, or COUNT is 0;
    /// 3. the client isn't below 16;
    /// 4. a word is no pattern where the form has one;
    /// 5. the column isn't below the number of columns;
    /// 6. no graph of the file has this name, or no file was given;
    /// 7. the 65,537th item, or the item by which the COUNTs of all reads pass 262,144, judged once
    ///    the line is read whole;
    /// 9. two spans of the line share a block, judged once the line is read whole, and before codes
    ///    13 and 7;
    ///
    /// and 13: the 65th join line, judged once the line is read whole, and before code 7.
    #[error("line {line} of the script is refused by code {code}")]
    At { line: u32, code: u8 },
    /// There was no memory for the items.
    #[error("no memory for the items of the script")]
    Memory,
}

impl From<AllocError> for ScriptFault {
    ghost from_gives = { λ _ e. e ≡ Memory };

    fn from(_: AllocError) -> ScriptFault {
        ScriptFault::Memory
    }
}

impl<T: Drop> From<AllocFailed<T>> for ScriptFault {
    ghost from_gives = { λ _ e. e ≡ Memory };

    fn from(_: AllocFailed<T>) -> ScriptFault {
        ScriptFault::Memory
    }
}

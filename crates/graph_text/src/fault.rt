//! Why a graph file wasn't read.
ghost use Rattle.std.specs.Prelude.{◌≡◌};
ghost use Rattle.graph_text.specs.Answers.{fault_at};

use graph_mean::Memory;

/// Why a text wasn't read as graphs.
#[derive(Clone, Copy, Debug, PartialEq, Eq)]
pub enum BookFault {
    /// The first line that can't be read, numbered from 1, and why. Its words are judged from left
    /// to right. The codes are
    ///
    /// 1. a word isn't the one that the form has there, the line is out of order or has too few or
    ///    too many words, or a name isn't one;
    /// 2. a word is no number where the form has one;
    /// 3. a buffer's or a node's number isn't the next one;
    /// 4. an earlier graph of the file has that name;
    /// 5. a 2,049th buffer, node or return of a graph, its 16,385th source and antecedent together,
    ///    or a 65th graph, judged once the line is read whole;
    /// 6. the text ends within a graph; the line is the one behind the last.
    At { line: u32, code: u8 },
    /// There was no memory for the graphs.
    Memory,
}

impl From<Memory> for BookFault {
    ghost use Rattle.std.specs.Prelude.{◌≡◌};
    ghost use Rattle.graph_text.specs.declared.fault.BookFault.TheVariants.{Memory};

    ghost from_gives = { λ _ e. e ≡ Memory };

    fn from(_: Memory) -> BookFault {
        BookFault::Memory
    }
}

/// Why a line wasn't read.
#[derive(Clone, Copy, Debug, PartialEq, Eq)]
pub enum LineFault {
    /// The code by which it is refused.
    Code(u8),
    /// There was no memory for the graph that it ends.
    Memory,
}

impl LineFault {
    /// The fault of the text whose line of this number has this one.
    pub fn at(self, line: u32) -> BookFault
        ensures { result ≡ fault_at line self }
    {
        match self {
            LineFault::Code(code) => BookFault::At { line, code },
            LineFault::Memory => BookFault::Memory,
        }
    }
}

impl From<u8> for LineFault {
    ghost use Rattle.std.specs.Prelude.{◌≡◌};
    ghost use Rattle.graph_text.specs.declared.fault.LineFault.TheVariants.{Code};

    ghost from_gives = { λ code e. e ≡ Code code };

    fn from(code: u8) -> LineFault {
        LineFault::Code(code)
    }
}

impl From<Memory> for LineFault {
    ghost use Rattle.std.specs.Prelude.{◌≡◌};
    ghost use Rattle.graph_text.specs.declared.fault.LineFault.TheVariants.{Memory};

    ghost from_gives = { λ _ e. e ≡ Memory };

    fn from(_: Memory) -> LineFault {
        LineFault::Memory
    }
}

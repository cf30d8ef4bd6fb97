//! Why graphs aren't joined.
ghost use Rattle.std.specs.Prelude.{◌≡◌};
ghost use Rattle.top_join.specs.declared.fault.JoinFault.TheVariants.{Memory};

use graph_mean::Memory as NoMemory;
use std::alloc::{AllocError, AllocFailed};

/// Why the graphs of join lines aren't joined.
#[derive(Clone, Copy, Debug, PartialEq, Eq)]
pub enum JoinFault {
    /// The first join line, numbered from 1, whose graphs can't be joined, and why:
    ///
    /// - 10: one of the graphs can't be half of a joined one, as `graph_merge::MergeFault::Form` says;
    /// - 11: the first span's last stripe isn't below the second span's first;
    /// - 12: both together are too large, as `graph_merge::MergeFault::Large` says.
    ///
    /// 11 is tried before the others.
    At { line: u32, code: u8 },
    /// There was no memory for a graph.
    Memory,
}

impl From<AllocError> for JoinFault {
    ghost from_gives = { λ _ e. e ≡ Memory };

    fn from(_: AllocError) -> JoinFault {
        JoinFault::Memory
    }
}

impl From<NoMemory> for JoinFault {
    ghost from_gives = { λ _ e. e ≡ Memory };

    fn from(_: NoMemory) -> JoinFault {
        JoinFault::Memory
    }
}

impl<T: Drop> From<AllocFailed<T>> for JoinFault {
    ghost from_gives = { λ _ e. e ≡ Memory };

    fn from(_: AllocFailed<T>) -> JoinFault {
        JoinFault::Memory
    }
}

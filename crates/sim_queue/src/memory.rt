//! Want of memory.
use std::alloc::{AllocError, AllocFailed};

/// There was no memory for the services or the replies.
#[derive(Clone, Copy, Debug, PartialEq, Eq)]
pub struct Memory;

impl From<blk_plain::Memory> for Memory {
    fn from(_: blk_plain::Memory) -> Self {
        Memory
    }
}

impl From<AllocError> for Memory {
    fn from(_: AllocError) -> Self {
        Memory
    }
}

impl<T: Drop> From<AllocFailed<T>> for Memory {
    fn from(_: AllocFailed<T>) -> Self {
        Memory
    }
}

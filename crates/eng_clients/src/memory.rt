//! Want of memory.
use std::alloc::{AllocError, AllocFailed};

/// There was no memory for the clients.
#[derive(Clone, Copy, Debug, PartialEq, Eq)]
pub struct Memory;

impl From<AllocError> for Memory {
    fn from(_: AllocError) -> Self {
        Memory
    }
}

impl<T: Drop> From<AllocFailed<T>> for Memory {
    fn from(_: AllocFailed<T>) -> Self {
        Memory
    }
}

impl From<eng_one::Memory> for Memory {
    fn from(_: eng_one::Memory) -> Self {
        Memory
    }
}

impl From<graph_mean::Memory> for Memory {
    fn from(_: graph_mean::Memory) -> Self {
        Memory
    }
}

impl From<lay_core::Memory> for Memory {
    fn from(_: lay_core::Memory) -> Self {
        Memory
    }
}

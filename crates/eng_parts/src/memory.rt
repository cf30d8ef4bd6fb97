//! Want of memory.
use std::alloc::{AllocError, AllocFailed};

/// There was no memory for a core.
#[derive(Clone, Copy, Debug, PartialEq, Eq)]
pub struct Memory;

impl From<AllocError> for Memory {
    fn from(_: AllocError) -> Self {
        Memory
    }
}

impl<T: Drop> From<AllocFailed<T>> for Memory {
    fn from(_: AllocFailed<T>) -> Self {
        Memory
    }
}

impl From<buf_pool::Memory> for Memory {
    fn from(_: buf_pool::Memory) -> Self {
        Memory
    }
}

impl From<eng_clients::Memory> for Memory {
    fn from(_: eng_clients::Memory) -> Self {
        Memory
    }
}

impl From<eng_cols::Memory> for Memory {
    fn from(_: eng_cols::Memory) -> Self {
        Memory
    }
}

impl From<eng_job::Memory> for Memory {
    fn from(_: eng_job::Memory) -> Self {
        Memory
    }
}

impl From<eng_log::Memory> for Memory {
    fn from(_: eng_log::Memory) -> Self {
        Memory
    }
}

impl From<graph_check::Memory> for Memory {
    fn from(_: graph_check::Memory) -> Self {
        Memory
    }
}

impl From<stripe_lock::Memory> for Memory {
    fn from(_: stripe_lock::Memory) -> Self {
        Memory
    }
}

//! Texts that tests put together.
use std::alloc::{AllocError, Global};

/// The parts, one behind the other.
pub fn joined(alloc: Global, parts: &[&[u8]]) -> Result<Vec<u8>, AllocError> {
    let mut whole = Vec::new(alloc);
    for part in parts {
        whole.extend_from_slice(*part)?;
    }
    Ok(whole)
}

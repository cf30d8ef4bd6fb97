//! Tuples that a few numbers stand for.
ghost use Rattle.std.specs.Prelude.{◌≡◌, ◌<◌, ◌++◌, map, IfOk, OnOk};
ghost use Rattle.std.specs.List.{range_with_len};
ghost use Rattle.lay_design.specs.Families.{moved, flat};

use std::alloc::{AllocError, Global};

// Appends the base tuple, moved on by so much.
fn push_moved(list: &mut Vec<u32>, v: u32, base: &[u32], by: u32) -> Result<(), AllocError>
    requires { 0 < v }
    ensures { OnOk result (list.new.items ≡ list.old.items ++ moved v base.now by) }
{
    for object in base {
        let next = (u64::from(*object) + u64::from(by)) % u64::from(v);
        list.push(next as u32)?;
    }
    Ok(())
}

/// The tuples of a cyclic design, one after the other.
#[tactic(auto, using(crate::proofs::Flat::flat_more))]
pub(crate) fn cyclic_tuples(alloc: Global, v: u32, base: &[u32]) -> Result<Vec<u32>, AllocError>
    requires { 0 < v }
    ensures { IfOk result
        (λ list. list.items ≡ flat (map (moved v base.now) (range_with_len 0 v))) }
{
    let mut list = Vec::new(alloc);
    for by in 0..v {
        push_moved(&mut list, v, base, by)?;
    }
    Ok(list)
}

//! All tuples of so many of the first objects.
ghost use Rattle.std.specs.Prelude.{◌≡◌, ◌<◌, ◌≤◌, ◌+◌, ◌-◌, ◌++◌, map, min, IfOk, IfSome, IsNone, OnOk};
ghost use Rattle.lay_design.specs.Families.{choose, subsets, flat};

use crate::numbers::Numbers;
use std::alloc::{AllocError, Global};

/// How many tuples of k of n objects there are, or 4,097 if there are more than 4,096.
#[tactic(auto, using(crate::proofs::Combinations::choose_none, crate::proofs::Combinations::choose_few, crate::proofs::Combinations::choose_step))]
pub(crate) fn count_subsets(n: u32, k: u32) -> u32
    ensures { result ≡ min 4097 (choose n k) }
{
    if k == 0 {
        return 1;
    }
    if n < k {
        return 0;
    }
    let with_first = count_subsets(n - 1, k - 1);
    if with_first > 4_096 {
        return 4_097;
    }
    (with_first + count_subsets(n - 1, k)).min(4_097)
}

/// The numbers of a complete design; None exactly where it has more than 4,096 tuples.
#[tactic(auto, using(crate::proofs::Combinations::choose_fewer, crate::proofs::Combinations::choose_fewest))]
pub(crate) fn complete_numbers(v: u32, k: u32) -> Option<Numbers>
    requires v { 2 ≤ v }
    requires k { 2 ≤ k }
    ensures some { IfSome result (λ numbers. numbers ≡ record {
      tuples = choose v k;
      objects = v;
      width = k;
      degree = choose (v - 1) (k - 1);
      together = choose (v - 2) (k - 2);
    }) }
    ensures none { IsNone result → 4096 < choose v k }
{
    let tuples = count_subsets(v, k);
    if tuples > 4_096 {
        return None;
    }
    Some(Numbers {
        tuples,
        objects: v,
        width: k,
        degree: count_subsets(v - 1, k - 1),
        together: count_subsets(v - 2, k - 2),
    })
}

// Appends the tuples of k of the n objects from the first on, each behind the same front.
fn push_subsets(
    list: &mut Vec<u32>,
    front: &mut Vec<u32>,
    first: u32,
    n: u32,
    k: u32,
) -> Result<(), AllocError>
    requires { first + n ≤ 32 }
    ensures list { OnOk result (list.new.items ≡ list.old.items
        ++ flat (map (λ tuple. front.old.items ++ tuple) (subsets first n k))) }
    ensures front { OnOk result (front.new.items ≡ front.old.items) }
{
    if k == 0 {
        return list.extend_from_slice(front.as_slice());
    }
    if n < k {
        return Ok(());
    }
    front.push(first)?;
    push_subsets(list, front, first + 1, n - 1, k - 1)?;
    front.pop();
    push_subsets(list, front, first + 1, n - 1, k)?;
    Ok(())
}

/// The tuples of a complete design, one after the other.
pub(crate) fn complete_tuples(alloc: Global, v: u32, k: u32) -> Result<Vec<u32>, AllocError>
    requires { v ≤ 32 }
    ensures { IfOk result (λ list. list.items ≡ flat (subsets 0 v k)) }
{
    let mut list = Vec::new(alloc);
    let mut front = Vec::new(alloc);
    push_subsets(&mut list, &mut front, 0, v, k)?;
    Ok(list)
}

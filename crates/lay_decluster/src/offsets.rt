//! How many earlier tuples of a design have each position's object.
ghost use Rattle.std.specs.Prelude.{◌≡◌, ◌<◌, ◌≤◌, ◌+◌, ◌*◌, IfOk, OnOk, length, vec_capacity};
ghost use Rattle.lay_design.specs.Design.{IsDesign};
ghost use Rattle.lay_decluster.specs.Offsets.{AreOffsets, AreCounts};

use lay_design::Design;
use std::alloc::{AllocError, Global};

// The counts for the objects of one more tuple.
fn push_counts(
    offsets: &mut Vec<u32>,
    counts: &[u32],
    design: &Design,
    tuple: u32,
) -> Result<(), AllocError>
    requires tuple { tuple < design.now.b }
    requires counts { AreCounts design.now tuple counts.now }
    requires length { length counts.now ≡ 32 }
    requires offsets { AreOffsets design.now tuple offsets.old.items }
    ensures { OnOk result (AreOffsets design.now (tuple + 1) offsets.new.items) }
{
    for position in 0..design.k() {
        offsets.push(counts[design.object(tuple, position) as usize])?;
    }
    Ok(())
}

fn count_tuple(counts: &mut [u32], design: &Design, tuple: u32)
    requires tuple { tuple < design.now.b }
    requires counts { AreCounts design.now tuple counts.old }
    requires length { length counts.old ≡ 32 }
    ensures counts { AreCounts design.now (tuple + 1) counts.new }
    ensures length { length counts.new ≡ 32 }
{
    for position in 0..design.k() {
        counts[design.object(tuple, position) as usize] += 1;
    }
}

/// The offsets of all positions, tuple by tuple.
pub(crate) fn offsets_of(alloc: Global, design: &Design) -> Result<Vec<u32>, AllocError>
    ensures { IfOk result (λ offsets. AreOffsets design.now design.now.b offsets.items) }
{
    let mut offsets = Vec::with_capacity(alloc, (design.b() * design.k()) as usize)?;
    let mut counts = [0; 32];
    for tuple in 0..design.b() {
        push_counts(&mut offsets, &counts, design, tuple)?;
        count_tuple(&mut counts, design, tuple);
    }
    Ok(offsets)
}

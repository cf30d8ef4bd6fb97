//! Why numbers and tuples are no design.
ghost use Rattle.std.specs.Prelude.{OnOk, IfErr};
ghost use Rattle.lay_design.specs.Design.{AreTuples, IsDesign, IsFault};
ghost use Rattle.lay_design.specs.Given.{blocks_of};

use crate::counts::{count_pairs, first_parted, first_stray};
use crate::fault::DesignFault;
use crate::numbers::{Numbers, are_numbers};
use crate::places::{first_outside, first_repeated};
use crate::tuples::Tuples;
use std::alloc::Global;

// The numbers, and the objects of each tuple by themselves.
fn check_tuples(numbers: Numbers, list: &[u32]) -> Result<(), DesignFault>
    ensures ok { OnOk result (AreTuples (blocks_of numbers list.now)) }
    ensures err { IfErr result (λ fault. IsFault (blocks_of numbers list.now) fault) }
{
    if !are_numbers(numbers, list) {
        return Err(DesignFault::Count);
    }
    let tuples = Tuples {
        count: numbers.tuples,
        width: numbers.width,
        objects: list,
    };
    if let Some(spot) = first_outside(tuples, numbers.objects) {
        return Err(DesignFault::Element {
            tuple: spot.row,
            element: spot.place,
        });
    }
    if let Some(spot) = first_repeated(tuples) {
        return Err(DesignFault::Repeat {
            tuple: spot.row,
            element: spot.place,
        });
    }
    Ok(())
}

// In how many tuples each object stands, and each two.
fn check_counts(alloc: Global, numbers: Numbers, list: &[u32]) -> Result<(), DesignFault>
    requires { AreTuples (blocks_of numbers list.now) }
    ensures ok { OnOk result (IsDesign (blocks_of numbers list.now)) }
    ensures err { IfErr result (λ fault. IsFault (blocks_of numbers list.now) fault) }
{
    let counts = count_pairs(
        alloc,
        Tuples {
            count: numbers.tuples,
            width: numbers.width,
            objects: list,
        },
    )?;
    let table = counts.as_slice();
    if let Some(object) = first_stray(table, numbers.objects, numbers.degree) {
        return Err(DesignFault::Degree {
            object,
            has: table[(object * 32 + object) as usize],
        });
    }
    if let Some(spot) = first_parted(table, numbers.objects, numbers.together) {
        return Err(DesignFault::Pair {
            x: spot.row,
            y: spot.place,
            has: table[(spot.row * 32 + spot.place) as usize],
        });
    }
    Ok(())
}

/// Ok exactly where the numbers and tuples are a design, unless there is no memory.
pub(crate) fn find_fault(alloc: Global, numbers: Numbers, list: &[u32]) -> Result<(), DesignFault>
    ensures ok { OnOk result (IsDesign (blocks_of numbers list.now)) }
    ensures err { IfErr result (λ fault. IsFault (blocks_of numbers list.now) fault) }
{
    match check_tuples(numbers, list) {
        Ok(()) => check_counts(alloc, numbers, list),
        Err(fault) => Err(fault),
    }
}

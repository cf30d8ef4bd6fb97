//! What holds of designs and of the causes why there is none.
ghost use Rattle.std.specs.Prelude.{◌≡◌};
ghost use Rattle.lay_design.specs.Design.{Blocks, IsDesign, IsFault};

use crate::fault::DesignFault;

/// A design has no fault but want of memory: so `check` refuses no other.
pub fn designs_have_no_fault()
    ensures { (d : Blocks) (fault : DesignFault) → IsDesign d → IsFault d fault
        → fault ≡ DesignFault.Memory }
{}

//! Whether what a configuration gives is a block design.
ghost use Rattle.std.specs.Prelude.{◌≡◌, ◌⊎◌, IfErr, IfOk};
ghost use Rattle.lay_design.specs.Design.{IsDesign, IsFault};
ghost use Rattle.raid_conf.specs.Answers.{Judges, AnswersFault};
ghost use Rattle.raid_conf.specs.Designs.{blocks_of, is_design, serves};
ghost use Rattle.raid_conf.specs.Steps.{is_wide};
ghost use Rattle.raid_conf.specs.Levels.{has_design};

use crate::fault::ConfFault;
use crate::given::Given;
use lay_design::{Design, DesignFault, designs_have_no_fault};
use std::alloc::Global;

/// The block design that is given.
///
/// # Errors
///
/// As of lay_design, for these numbers and tuples; or `Memory` for a copy of the tuples.
pub(crate) fn design_of(alloc: Global, given: &Given) -> Result<Design, DesignFault>
    ensures design { IfOk result (λ design. design ≡ blocks_of given.now) }
    ensures ok { IfOk result (λ design. IsDesign design) }
    ensures err { IfErr result
        (λ fault. (fault ≡ DesignFault.Memory) ⊎ IsFault (blocks_of given.now) fault) }
{
    match given {
        Given::Listed {
            b,
            v,
            k,
            r,
            lambda,
            tuples,
        } => {
            let Ok(copy) = tuples.copy() else {
                return Err(DesignFault::Memory);
            };
            Design::check(alloc, *b, *v, *k, *r, *lambda, copy)
        }
        Given::Cyclic { v, base } => Design::cyclic(alloc, *v, base.as_slice()),
        Given::Complete { v, k } => Design::complete(alloc, *v, *k),
    }
}

// What a fault says: there is no memory, or no design.
fn refusal(fault: DesignFault) -> Result<bool, ConfFault>
    ensures { AnswersFault fault result }
{
    match fault {
        DesignFault::Memory => Err(ConfFault::Memory),
        DesignFault::Count
        | DesignFault::Element { .. }
        | DesignFault::Repeat { .. }
        | DesignFault::Degree { .. }
        | DesignFault::Pair { .. } => Ok(false),
    }
}

fn is_design(alloc: Global, given: &Given) -> Result<bool, ConfFault>
    ensures { Judges result (is_design (blocks_of given.now)) }
{
    designs_have_no_fault();
    match design_of(alloc, given) {
        Ok(_) => {}
        Err(fault) => return refusal(fault),
    }
    Ok(true)
}

// The objects of a tuple are three at least.
#[tactic(auto, unfolding(crate::specs::Steps::is_wide))]
fn is_wide(given: &Given) -> bool
    ensures { result ≡ is_wide given.now }
{
    match given {
        Given::Listed { k, .. } | Given::Complete { k, .. } => 3 <= *k,
        Given::Cyclic { base, .. } => 3 <= base.as_slice().len(),
    }
}

/// Whether a level can stand on what is given: a block design, whose tuples have three objects at
/// least at level D, where one of them is the spare place.
#[tactic(auto, unfolding(crate::specs::Designs::serves, crate::specs::Steps::is_wide))]
pub(crate) fn serves(alloc: Global, level: u8, given: &Given) -> Result<bool, ConfFault>
    ensures { Judges result (serves level given.now) }
{
    if level == b'D' && !is_wide(given) {
        return Ok(false);
    }
    is_design(alloc, given)
}

#[tactic(auto, unfolding(crate::specs::Levels::has_design))]
pub(crate) fn has_design(level: u8) -> bool
    ensures { result ≡ has_design level }
{
    level == b'T' || level == b'D'
}

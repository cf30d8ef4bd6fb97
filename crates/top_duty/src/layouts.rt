//! The layout of an array.
ghost use Rattle.std.specs.Prelude.{◌≡◌, IfOk, IfErr};
ghost use Rattle.raid_conf.specs.Form.{IsConf};
ghost use Rattle.raid_conf.specs.Layouts.{shape_of};
ghost use Rattle.top_duty.specs.Opening.{AreTableRows};

use lay_core::Layout;
use lay_design::designs_have_no_fault;
use raid_conf::{AnyFault, AnyLayout, Conf};
use std::alloc::Global;
use top_status::Status;

// The status of a fault, which is want of memory.
fn memory_of(fault: AnyFault) -> Status
    requires { fault ≡ AnyFault.Memory }
    ensures { result ≡ Status.Memory }
{
    match fault {
        AnyFault::Memory => Status::Memory,
        AnyFault::Make(_) | AnyFault::Design(_) | AnyFault::Table(_) => unreachable!(),
    }
}

/// The layout over so many rows, which are those of whole tables: so there may be want of memory alone.
pub fn layout_of(alloc: Global, conf: &Conf, rows: u32) -> Result<AnyLayout, Status>
    requires conf { IsConf conf.now }
    requires rows { AreTableRows conf.now rows }
    ensures shape { IfOk result
        (λ layout. ⟦<AnyLayout as Layout>⟧.shape layout ≡ shape_of conf.now rows) }
    ensures memory { IfErr result (λ status. status ≡ Status.Memory) }
{
    designs_have_no_fault();
    match AnyLayout::make(alloc, conf, rows) {
        Ok(layout) => Ok(layout),
        Err(fault) => Err(memory_of(fault)),
    }
}

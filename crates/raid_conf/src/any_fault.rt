//! Why a configuration's layout isn't made.
use lay_decluster::TableFault;
use lay_design::DesignFault;
use lay_plain::MakeFault;

/// Why the layout of a configuration isn't made with so many rows.
#[derive(Clone, Copy, Debug, PartialEq, Eq)]
pub enum AnyFault {
    /// The maker of the level's layout refuses, at the levels that stand on no block design.
    Make(MakeFault),
    /// What is given isn't a block design, and not for want of memory.
    Design(DesignFault),
    /// The maker of the declustered layout refuses, and not for want of memory.
    Table(TableFault),
    /// There is no memory.
    Memory,
}

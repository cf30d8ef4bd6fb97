//! Sweeps over the stripes of an array that isn't in use: whether each stripe's check unit is the
//! exclusive-or of its data units, and the check units that aren't rewritten.
//!
//! [`sweep_check`] counts the stripes that aren't in sync, [`sweep_sync`] rewrites the check units
//! of these, and [`sweep_init`] rewrites all (raidctl(8): checking, rewriting and initialising
//! parity). A stripe that lacks a unit is left alone. Of each other stripe the units are read once,
//! and then at most its check unit is written. A call reads rows that lie side by side on a device, as
//! many as the room has place for, up to 64 KiB. A device that fails a call makes its column dead; that
//! stripe isn't counted, and the device isn't called again. Each sweep is handed
//! a judge, which may hold any columns, as many as the layout has. After each stripe a [`SweepRoom`]
//! tells how far the sweep is. [`rebuild_count`] is how many stripes a column has to be rebuilt in.
#![tactic(auto)]

mod adding;
mod ahead;
mod count;
mod devices;
mod kind;
mod memory;
mod place;
mod room;
mod stripe;
mod sums;
mod sweep;

pub use count::rebuild_count;
pub use memory::Memory;
pub use room::{Room, SweepRoom};
pub use sweep::{sweep_check, sweep_init, sweep_sync, sync_one};

//! A parity map: which regions of an array were being written.
#![tactic(auto)]

mod asking;
mod laws;
mod map;
mod marking;
mod memory;
mod reading;
mod sweeping;

pub use asking::mark_script;
pub use laws::{
    a_union_has_what_its_maps_mark, an_array_in_sync_is_a_start, marks_and_a_sweep_leave_a_start,
    reads_of_the_library_have_no_write, regions_of_a_script_are_enough,
    what_is_unsound_at_a_stop_is_marked, what_is_unsound_by_earlier_columns_is_marked,
    what_is_unsound_is_marked,
};
pub use map::Map;
pub use marking::mark_all;
pub use memory::Memory;
pub use reading::read_maps;
pub use sweeping::{MapRoom, sweep_marked};

//! Block designs: tuples of objects, in which each object stands equally often, and each two
//! objects stand together equally often.
//!
//! A design has b tuples of k distinct objects below v; each object stands in r tuples, and each
//! two objects stand together in lambda. (Holland and Gibson, "Parity Declustering for Continuous
//! Operation in Redundant Disk Arrays"; Hall, "Combinatorial Theory".)
#![tactic(auto)]

mod causes;
mod counts;
mod design;
mod families;
mod fault;
mod laws;
mod numbers;
mod places;
mod spot;
mod subsets;
mod tuples;

pub use design::Design;
pub use fault::DesignFault;
pub use laws::designs_have_no_fault;

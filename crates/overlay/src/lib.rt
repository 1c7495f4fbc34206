//! The blocks of a disk while a consistency point is under way (overlay): the planned ones are read
//! from the plan, all others from the disk below, so a place reads as it does once the point is
//! carried out. It is written in slices, and nothing that is read changes by them.
#![tactic(auto)]

mod overlay;
mod pending;

pub use overlay::Overlay;
pub use pending::PendingPoint;

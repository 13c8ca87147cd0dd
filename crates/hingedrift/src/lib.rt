// What the box's radio driver, which is C, calls: numbers and byte buffers, thin over the proved crates. include/hingedrift.h
// declares it.
#![tactic(auto)]

pub mod reading;
pub mod saving;
pub mod serving;
pub mod table;

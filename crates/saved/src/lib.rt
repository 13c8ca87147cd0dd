// The saved form of a reporting table, for flash: a table's bytes written to it, and a table's bytes made from it. No table by value is built.
// docs/TABLE.md has the layout.
#![tactic(auto)]

mod form;
pub mod restore;
mod savable;
pub mod save;

// Frames (ZCL 2.4): the header, commands and statuses by their codes; the answers of a call; the reply buffer.
// After frame/header and frame/mod.rs of zigbee-rs.
#![tactic(auto)]

pub mod answer;
pub mod command_identifier;
pub mod failures;
pub mod header;
pub mod reply;
pub mod status;

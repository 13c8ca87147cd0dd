// The reply readers, beside zigbee-rs' frame/payload.rs: the head-end's side. For each reply and for a report frame, a check of the whole
// frame that counts its records, and record k of a frame that passes it. Every call checks the whole: nothing of a refused frame is
// handed out, whatever was called before.
#![tactic(auto)]

mod body;
pub mod configuration_reply;
pub mod configure_reply;
pub mod default_reply;
pub mod discover_reply;
mod layout;
mod pass;
pub mod read_reply;
pub mod report_frame;
pub mod value;
pub mod write_reply;

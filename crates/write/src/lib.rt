// Write Attributes (02), Undivided (03) and No Response (05) (ZCL 2.5.3 to 2.5.6). After `write_attributes`,
// `write_attributes_undivided` and `apply_write_records` of zigbee-rs, server.rs.
#![tactic(auto)]

pub mod attributes;
mod pass;
mod record;

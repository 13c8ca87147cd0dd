// Read Attributes (00 to 01; ZCL 2.5.1): after read_attributes of zigbee-rs' server.rs.
#![tactic(auto)]

pub mod attributes;

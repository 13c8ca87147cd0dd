// Discover Attributes (0c to 0d; ZCL 2.5.13): after discover_attributes of zigbee-rs' server.rs.
#![tactic(auto)]

pub mod attributes;

// Data types of the ZCL (ZCL 2.6): identifiers and the type table, numbers of 1 to 8 bytes, the number of a value, and
// where a value ends. After types/ids.rs and the `ZclDataType` reader of zigbee-rs.
#![tactic(auto)]

pub mod extent;
pub mod ids;
pub mod number;
pub mod value;

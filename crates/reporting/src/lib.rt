// Attribute reporting (ZCL 2.5.7 to 2.5.11): the table of reporting configurations, when a report is due, and the table as
// lent bytes. After reporting.rs of zigbee-rs.
#![tactic(auto)]

pub mod carried;
pub mod distance;
pub mod entry;
pub mod held;
pub mod lent;
pub mod numbers;
pub mod table;

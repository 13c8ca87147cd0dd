// Configure Reporting (06 to 07; ZCL 2.5.7) and Read Reporting Configuration (08 to 09; ZCL 2.5.9): after configure_reporting and
// read_reporting_configuration of zigbee-rs' server.rs.
#![tactic(auto)]

pub mod change;
pub mod configuration;
pub mod configure;
mod key;
mod pass;
mod record;
mod seek;
mod settle;

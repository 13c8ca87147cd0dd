// The Report Attributes frame (ZCL 2.5.11), after AttributeReportBuilder of zigbee-rs, and the report turn, which fills one with all that is due.
#![tactic(auto)]

pub mod report;
pub mod turn;

// The server (ZCL 2.5): a request dispatched to its command, Default Responses, and the responder for clusters that are not served. After
// server.rs of zigbee-rs.
#![tactic(auto)]

pub mod default_response;
pub mod serve;
pub mod unsupported_cluster;

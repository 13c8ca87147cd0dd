// The value store (document 01, "The store: contents first, bodies after"): attributes and their bytes, in bytes that the caller
// lends. zigbee-rs leaves this layer to whoever implements its `ClusterServer`.
#![tactic(auto)]

pub mod layout;
pub mod lookup;
pub mod value;
pub mod write;

// The messages of a file: a call of a session in sixteen bytes, and why a file refuses one.
#![tactic(auto)]

mod calls;
mod fault;
mod fields;
mod letters;

pub use calls::decode;
pub use fault::{FileFault, Layer, MessageFault};

// Suites: macs, pads, tags and sealed lines.
#![tactic(auto)]

pub mod cmac_suite;
pub mod kind;
mod message;
pub mod nonce;
pub mod sealing;
pub mod sip_suite;
pub mod suite;

// The verdict on a packet's form as a function of its bytes.
#![tactic(auto)]

pub mod laws;

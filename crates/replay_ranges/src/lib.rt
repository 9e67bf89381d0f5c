//! What the front of a replay gives the lanes is in its ranges. The laws are the contracts of
//! [`laws`].
#![tactic(auto)]

pub mod laws;

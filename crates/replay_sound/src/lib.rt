//! The front of every script gives the lanes what fits them, and every script makes a replay with
//! every capture: so each lane of a replay is a run of the list machine. The laws are the contracts
//! of [`laws`].
#![tactic(auto)]

pub mod laws;

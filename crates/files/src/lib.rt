// The files layer: refusals as a caller of the library sees them.

#![tactic(auto)]

pub mod call_fault;

#![tactic(auto)]

// The event graph of 01, by value: fresh graphs, pushes, run starts and takes, lookups and cuts. Each call tests its graph first
// and refuses what 01 refuses; its contract is an equation with its definition in the model crate.

pub mod broken;
pub mod cut;
pub mod fresh;
mod growth;
pub mod held;
pub mod lookups;
pub mod marks;
pub mod pushing;
pub mod ranges;
pub mod records;
mod splitting;
pub mod starting;

#![tactic(auto)]

// What reads ancestors off a graph: archive points, the runs that are concurrent with a run, the parents that give a wanted version. Each
// call tests its graph first; its contract is an equation with its definition in the model crate.

pub mod archive;
pub mod concurrent;
mod ranges;
mod rows;
pub mod wanted;
mod words;

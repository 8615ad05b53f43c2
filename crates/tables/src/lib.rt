#![tactic(auto)]

// What a walk reads of its range of runs: parents, chains and rows, members and sums, children, weights.
pub mod children;
pub mod covers;
pub mod distance;
pub mod groups;
pub mod jagged;
pub mod members;
pub mod rows;
pub mod tabling;
pub mod versions;
pub mod words;

#![tactic(auto)]

// Steps written into a lent list, three words each, and a visit's moves.
pub mod moving;
pub mod spans;
#[cfg(test)]
mod tests;
pub mod writing;

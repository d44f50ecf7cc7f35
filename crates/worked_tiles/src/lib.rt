//! Worked examples of tiles: what workers do with several, and the history of a pixel. They stand in a crate of their own, since a crate
//! with tests is proved twice.
#![tactic(auto)]

#[cfg(test)]
mod tests;

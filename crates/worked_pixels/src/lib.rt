//! Worked examples of pixels: what triangles cover, how tiles keep them, and what draws leave on a tile. They stand in a crate of their own, since a crate
//! with tests is proved twice.
#![tactic(auto)]

#[cfg(test)]
mod tests;

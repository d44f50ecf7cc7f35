//! Worked examples of command lines and sessions: their replies, images, and devices that fail. They stand in a crate of their own, since a crate
//! with tests is proved twice.
#![tactic(auto)]

#[cfg(test)]
mod tests;

//! Worked examples of captures: what is read from them, and the words in which their events are told. They stand in a crate of their own, since a
//! crate with tests is proved twice.
#![tactic(auto)]

#[cfg(test)]
mod tests;

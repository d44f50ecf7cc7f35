//! Tests of the calls that want memory. Each makes one call, and says what is answered; `checks/refuse_allocations` runs it again and again,
//! and refuses its first allocation, then its second, and so on. One allocation at most is refused in a run, so a call that is made again
//! after a refusal succeeds. Here they run with ample memory.
#![tactic(auto)]

#[cfg(test)]
mod tests;

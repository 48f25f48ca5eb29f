//! The worked row of turns by calls, in which an actor's probe sees the packet that came last.

mod tests;

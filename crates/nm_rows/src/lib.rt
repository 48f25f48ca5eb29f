//! The worked rows, by calls: of what one rank stands on (a text, requests, strays, and sources and sinks), between
//! ranks, of turns, and of two at work at once.
#![tactic(auto)]

#[cfg(test)]
mod at_once;
#[cfg(test)]
mod ends;
#[cfg(test)]
mod fabric;
#[cfg(test)]
mod requests;
#[cfg(test)]
mod scripts;
#[cfg(test)]
mod strays;
#[cfg(test)]
mod world;

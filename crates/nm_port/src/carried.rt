//! What ports carry, as lists of parcels by number.
//!
//! A port counts what it sent and passed on, and its seat knows the parcels by way. Whoever runs a
//! rank knows what left it, and what it took, one after another.
//!
//! # What a contract sees
//! `HasSent` and `HasPassed` tie the two. What is seen of a parcel is up to the caller: its item, or a
//! part of that, or the item with the parcel's sender and number.
//!
//! # What is proved
//! They stand at a new port, each send and each poll keeps them, and at the close they say which lists
//! `Closed` has (`laws`).

pub mod laws;

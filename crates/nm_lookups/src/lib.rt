//! Where in a history each thing happened first.
//!
//! `asked` has the request and the message of each command, and `pairing` what was paired and free before
//! each event, also where rules are broken.
//!
//! # What a contract sees
//! `specs/Placed.antt` says what the tables hold: the first place in a history of each kind of event of each
//! message, or of each number or line. `specs/Deciding.antt` says what it is to decide a fact.
//! # What is proved
//! - A table has exactly the first places of its kind of event, unless memory runs out while it is made.
//! - A table decides whether something happened before a place, or before a stamp if stamps rise.
//!
//! A table is made in one walk of the history, and each look-up is one of a map; that is not proved.
//! # What is only tested
//! Nothing.
#![tactic(auto)]

pub mod asked;
pub mod firsts;
pub mod kinds;
pub mod pairing;
pub mod places;

//! The search over the states of a script's runs, and its ends.
//!
//! `choices` says what may happen next at a state.
//!
//! # What a contract sees
//! `specs/Stores.antt` has the states that were found, and which of them are expanded. `specs/Ends.antt` says
//! at which states the ranks are at rest, what they report there, and that ends report all (`TellsAll`).
//! `specs/Met.antt` says which states moves lead to (`IsMet`), and that they are too many (`AreTooMany`).
//! `specs/Chosen.antt`, `specs/Coming.antt` and `specs/Apart.antt` say which moves are enough at a state, so
//! that the others may be postponed (`LetsAct`, `LetsCome`, `LetsPart`). `specs/Packs.antt` has a rank's state as the
//! numbers of its parts, and `specs/Ways.antt` how a state was found, as the search keeps them.
//! # What is proved
//! - The report of each lawful run of a script is that of one of the ends that `explore` finds, unless it
//!   answers that there are too many states: then moves lead from the first state to more different states
//!   than the limit.
//! - At each state all moves are made, or those that are enough. Where no cancel names a send, these are the
//!   moves of one rank whose next command is a send, a receive (of a rank without matched probes and
//!   receives) or a wait that may end; or the arrival of a message for a receive that names its sender, or
//!   that no other rank has a send for, if no cancel of its rank names it, and the rank has no matched probe
//!   and receive; or all moves of a group of ranks that no other rank speaks to. The other moves can be
//!   postponed, and lead to the same state.
//! - Each end is at a state that moves lead to, at which no rank has a move left (`TellsOnly`);
//!   `nm_listed::lawful` says that it is a run's. The moves that go with an end lead there (`AreEndsByWay`).
#![tactic(auto)]

mod apart;
pub mod choices;
mod chosen;
pub mod ends;
pub mod packs;
pub mod searches;
pub mod stores;
pub mod ways;

pub use ends::{End, Ends, Explored, explore, happening};

//! The states that the ranks of a script go through.
//!
//! # What a contract sees
//! A deed stands for an event that comes of a command (`specs/Deeds.antt`), and a rank's state is what it
//! did and what matching has of it (`specs/RankStates.antt`, `Spot`). `specs/Looks.antt` has what a state says
//! of its history.
//! # What is proved
//! - The state of a rank follows its history (`laws::spots_follow`): of what a rank does, of a message that
//!   comes and of one that is withdrawn it becomes what the history says with that event more. `Rank::act`,
//!   `Rank::arrive` and `Rank::withdraw` make just that state.
//! - What a state says of live requests and messages, of how many commands ran, messages were sent and
//!   receives were started, and of recalls is what the definitions say of its history (`laws::states_say`).
//! - Two parts of a state are taken for one where they are equal, and only there (`==` of `Part`).
//! - A rank's state is that of its parts (`specs/Parts.antt`, `PartLemmas.parts_make`).

pub mod deeds;
mod hashes;
pub mod laws;
pub mod looks;
pub mod parts;
pub mod ranks;

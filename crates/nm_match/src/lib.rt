//! Matching: which posted receive an arriving message takes, and which message a new receive
//! takes.
//!
//! MPI 3.1, sections 3.2.4, 3.5 and 3.8. A `Matcher` has the posted receive queue and the
//! unexpected message queue of one rank. Each is kept by source, tag and context, in order of age: the
//! receives in rings, the messages in buckets. It knows envelopes alone: bodies, requests and threads are
//! above.
//!
//! # What a contract sees
//! The list of the deeds so far, oldest first: the receives that were posted, the messages that
//! arrived, the cancels and withdrawals that were done, the claims, and the receives of claimed
//! messages. It takes no place in the program. `history_of` turns that list into the history that it
//! stands for, and each answer is a definition of `nm_history` on that history. The code forgets
//! what no answer needs; the definitions keep everything and look through the whole history.
//! # What is proved
//! - `post`, `arrive`, `probe` and `claim` answer the oldest match, or none where nothing matches
//!   (clause `oldest`).
//! - `cancel` answers `false` exactly where the receive is paired, and `withdraw` exactly where
//!   the message is paired, claimed or withdrawn before (clause `late`).
//! - `is_claimed`, `knows_post` and `knows_arrival` answer as defined.
//! - Each deed is kept once (clauses `ok` and `deeds`), and a call that is refused memory has
//!   changed nothing (clause `err`). `cancel`, `withdraw` and `probe` take no memory.
//! - `laws` lets a caller that keeps a history of its own speak of that history in place of the
//!   deeds; proofs above cite the lemmas that it comes to.
//! # What a call looks at
//! An arrival looks at the ring of its own key, and where a receive waits that takes any source or
//! any tag at the four that can have its receive. A receive, a probe or a claim that names a source
//! and a tag looks at one bucket; a wildcard looks at the first message of each bucket, and of more than 64
//! buckets only once: then all that waits stands under each wildcard that selects it, too, until none
//! waits, and a wildcard looks at one bucket. A probe does so where `prepare` was called before. A
//! cancel, a withdrawal, `is_claimed` and `take_claimed` look up one name. A ring and a bucket are found
//! by hashing, but for the ring of a key that came where no receive waited: it stands by itself. A receive has
//! the numbers of those before and behind it in its ring, and leaves it in a
//! few steps; a message leaves its bucket in steps that grow with the logarithm of what is there. No
//! ring and no bucket is empty, which the types say: an emptied one goes.
//! `knows_post` and `knows_arrival` look up one number. Receives whose numbers come one after another
//! stand in a row, where a number is its place, and nothing is hashed.
//! # What it holds
//! What waits, what is claimed and not yet received, and the numbers of the cancelled receives. The
//! row of receives begins anew where nothing stands in it, and grows to at most eight places for each
//! receive that stands there, and 64 more. Which numbers are taken is known by the next of each, and by
//! those that came before their time: `held_numbers` tells how many these are, at most as many as the
//! deeds say.
//! # What is only tested
//! That `post`, `arrive`, `claim` and `take_claimed` succeed with ample memory.
#![tactic(auto)]

mod buckets;
mod deeds;
mod fronts;
pub mod laws;
mod matching;
mod names;
mod picks;
mod posted;
mod seen;
mod standings;
mod unexpected;
mod waiting;
mod wildcards;

pub use deeds::Deed;
pub use matching::Matcher;
pub use names::Message;

//! The log of a rank: what its calls did, one after another, as moments that are sound.
//!
//! The laws of `nm_channels` speak of a log, a list of entries, that stands in no program. This module
//! ties it to a rank (`nm_rank`). A new rank has the empty log, and each call of it adds one moment
//! or none. So one who holds a rank, and made any calls on it, has a sound log of it, whose history
//! and clock are those of the rank. MPI 3.1, chapter 3.
//!
//! # What a contract sees
//! `IsLogged` is the relation between a rank's view and a log (`specs/Logged`). The history and the
//! clock are those of the log. What is known of each other rank is what its packets tell, and its
//! packets and pieces are counted. Each message has the bytes that came of it by the log. Those may
//! be gone once the result of its receive was given, so the relation has a list of the receives of
//! which that is so.
//! # What is proved
//! - `moments`: a new rank has the empty log. What each call adds is the law of a step
//!   (`nm_global::laws::steps`): one moment, which may follow those before it, and by a result none.
//! - `results`: a result that shows a message shows the bytes of it that came by the log, and may be
//!   recorded as the answer of a wait or a test of its request. An answer that shows a message may be
//!   recorded where it shows those bytes.
//!
//! A piece makes a moment only where one of its rank is due (`Rank::is_piece_due`). A call that
//! changes nothing needs no law. To use a law, call it.

pub mod laws;

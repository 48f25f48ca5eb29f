//! All that the runs of a script can report. A crate of laws.
//!
//! `spots` is the state of a rank: what it did, and its queues.
//!
//! # What a contract sees
//! `specs/Logs.antt` has a run as one list of events, in an order in which they may have come, and
//! `specs/Results.antt` what a wait or a test may show by then. `specs/Due.antt` says that a rank does what
//! its next command requires. `specs/Places.antt` has the state of a rank, `specs/Moves.antt` the moves,
//! `specs/Paths.antt` the paths and `specs/Rests.antt` their ends. `specs/Searches.antt` says which moves are
//! enough, and `specs/Queues.antt` why a receive may be posted early. `specs/Outcomes.antt` has the reports
//! of all runs of a script.
//! # What is proved
//! - Each run's report is that at the end of some moves (`runs_are_found`), by the laws before it.
//! - A search that explores all that it finds, by all moves or by ones that are enough, finds each end
//!   (`searches_find_ends`).
//!
//! That each path of moves is one of a run is not claimed: a move requires less than the rules of a run do.
#![tactic(auto)]

pub mod laws;
pub mod spots;

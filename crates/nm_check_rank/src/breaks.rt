//! Where a rule of a history breaks first.

/// Where a rule breaks first that is asked at each event of a history, and of all of them in the
/// end.
#[derive(Clone, Copy)]
pub enum Break {
    /// At the event of this place: the events before it keep the rule.
    At(usize),
    /// Behind the last event: all events keep the rule, and something is left in the end that the
    /// rule does not allow.
    Behind,
}

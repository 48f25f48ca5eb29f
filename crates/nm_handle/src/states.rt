//! What a handle may still do.

/// Whether a rank takes calls.
#[derive(Clone, Copy, Debug, PartialEq)]
pub enum State {
    /// It does.
    Open,
    /// It was closed: it makes turns alone.
    Closed,
    /// It was refused memory within a call or a turn, and does nothing any more.
    Failed,
}

//! Which event is over by which: a receive and a message by each other, as MPI matches them (MPI 3.1, 3.5), and a send
//! when it has left.

use nm_history::Happened;
use nm_history::plain::selects;
use nm_types::{Envelope, Post};

// The message left, or was withdrawn.
fn ends_send(what: &Happened, to: u8, n: u64) -> bool {
    match what {
        Happened::Out {
            to: there,
            n: number,
        } => *there == to && *number == n,
        Happened::Undone {
            to: there,
            n: number,
            done,
        } => *done && *there == to && *number == n,
        _ => false,
    }
}

// A message came that the receive selects, or it was cancelled.
fn ends_receive(what: &Happened, post: &Post) -> bool {
    match what {
        Happened::Arrive { a } => selects(post.from, post.tag, post.ctx, &a.env),
        Happened::Cancel { number, done } => *done && *number == post.number,
        _ => false,
    }
}

// A receive was posted that selects the message, or it was claimed or withdrawn.
fn ends_arrival(what: &Happened, env: &Envelope, n: u64) -> bool {
    match what {
        Happened::Post { post, .. } => selects(post.from, post.tag, post.ctx, env),
        Happened::Claim {
            from,
            n: number,
            ..
        } => *from == env.from && *number == n,
        Happened::Withdraw {
            from,
            n: number,
            done,
        } => *done && *from == env.from && *number == n,
        _ => false,
    }
}

/// Whether what began before is over by what happened.
pub fn ends(what: &Happened, before: &Happened) -> bool {
    match before {
        Happened::Send { to, n, .. } => ends_send(what, *to, *n),
        Happened::Post { post, .. } => ends_receive(what, post),
        Happened::Arrive { a } => ends_arrival(what, &a.env, a.n),
        _ => false,
    }
}

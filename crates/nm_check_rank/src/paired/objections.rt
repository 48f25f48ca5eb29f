//! What stands against an event, by the rules on whole messages, on ends and on cancels.

ghost use Rattle.std.specs.Prelude.{◌≡◌, ◌&&◌, ◌||◌, ℕ, not, if◌then◌else◌, Some, None, List, take};
ghost use Rattle.nm_history.specs.declared.events.Event as event;
ghost use Rattle.nm_history.specs.declared.events.Happened.TheVariants.{Out, Recall, Withdraw, Undone as Answered};
ghost use Rattle.nm_check_rank.specs.Objections as spec;
ghost use Rattle.nm_check_rank.specs.Tabled.{AreRankTables};
ghost use Rattle.nm_types.specs.declared.scripts.Line as script_line;
ghost use Rattle.nm_check_rank.specs.declared.paired.objections.Objection.TheVariants as against;

use crate::paired::tables::Tables;
use nm_history::Happened;
use nm_lookups::firsts::is_before;
use nm_lookups::kinds::{
    Arrivals, Askings, Claims, Late, Outs, Recalls, Refused, Sends, Undone, Wholes, Withdrawn,
};

/// What stands against an event.
#[derive(Clone, Copy)]
pub enum Objection {
    /// It happened before.
    Again,
    /// Its message had not come.
    NotCome,
    /// Its message was sent by asking, and no receive had taken it.
    NotTaken,
    /// Its message was not sent.
    NotSent,
    /// Its message was not recalled.
    NotRecalled,
    /// It is to be done, and is late.
    Done,
    /// It is to be late, and is done.
    Late,
    /// Its message was not claimed before.
    NotClaimed,
    /// A receive had taken its message.
    Taken,
    /// The handle of its command has no live message.
    NoMessage,
    /// It is to ask, and does not.
    Asking,
}

/// It happened before, or something else had to be before it, and was not.
fn once_after(again: bool, there: bool, lacks: Objection) -> Option<Objection>
    ensures { result ≡ spec.once_after again there lacks }
{
    if again {
        return Some(Objection::Again);
    }
    if there { None } else { Some(lacks) }
}

/// The word of an answer of yes or no, where it is to be this one.
pub fn word_after(called: bool, done: bool) -> Option<Objection>
    ensures { result ≡ spec.word_after called done }
{
    if called {
        return if done { None } else { Some(Objection::Done) };
    }
    if done { Some(Objection::Late) } else { None }
}

/// The first of two, if there is one.
fn either(a: Option<Objection>, b: Option<Objection>) -> Option<Objection>
    ensures { result ≡ spec.either a b }
{
    match a {
        Some(a) => Some(a),
        None => b,
    }
}

/// Whether one of two holds.
fn any(a: bool, b: bool) -> bool
    ensures { result ≡ (a || b) }
{
    a || b
}

/// Whether a message is free: it is neither paired nor claimed nor withdrawn.
fn is_free(taken: bool, claimed: bool, withdrawn: bool) -> bool
    ensures { result ≡ (not taken && not claimed && not withdrawn) }
{
    !taken && !claimed && !withdrawn
}

/// A message sent by asking that no receive had taken.
fn untaken(asking: bool, taken: bool) -> Option<Objection>
    ensures { result ≡ (if asking && not taken then Some against.NotTaken else None) }
{
    if asking && !taken {
        Some(Objection::NotTaken)
    } else {
        None
    }
}

/// What stands against a message that is whole at a place.
pub fn whole_objection(tables: &Tables, k: usize, what: &Happened) -> Option<Objection>
    ensures { (rank : ℕ) (lines : List script_line.Line) (h : List event.Event) →
        AreRankTables rank lines h tables.now →
        result ≡ spec.whole_objection (take k h) what.now }
{
    match what {
        Happened::Whole { from, n } => {
            let came = &tables.places.incoming.came;
            let whole = is_before::<Wholes>(&came.wholes, *from, *n, k);
            let arrived = is_before::<Arrivals>(&came.arrivals, *from, *n, k);
            let asking = is_before::<Askings>(&came.askings, *from, *n, k);
            let taken = tables.pairing.is_taken(*from, *n, k);
            either(
                once_after(whole, arrived, Objection::NotCome),
                untaken(asking, taken),
            )
        }
        _ => None,
    }
}

/// What stands against a withdrawal at a place.
fn withdraw_objection(tables: &Tables, k: usize, from: u8, n: u64, done: bool) -> Option<Objection>
    ensures { (rank : ℕ) (lines : List script_line.Line) (h : List event.Event) →
        AreRankTables rank lines h tables.now →
        result ≡ spec.end_objection (take k h) (Withdraw from n done) }
{
    let settled = &tables.places.incoming.settled;
    let withdrawn = is_before::<Withdrawn>(&settled.withdrawn, from, n, k);
    let refused = is_before::<Refused>(&settled.refused, from, n, k);
    let claimed = is_before::<Claims>(&settled.claims, from, n, k);
    let came = is_before::<Arrivals>(&tables.places.incoming.came.arrivals, from, n, k);
    let taken = tables.pairing.is_taken(from, n, k);
    let free = is_free(taken, claimed, withdrawn);
    either(
        once_after(any(withdrawn, refused), came, Objection::NotCome),
        word_after(free, done),
    )
}

/// What stands against the answer to a recall at a place.
fn undone_objection(tables: &Tables, k: usize, to: u8, n: u64, done: bool) -> Option<Objection>
    ensures { (rank : ℕ) (lines : List script_line.Line) (h : List event.Event) →
        AreRankTables rank lines h tables.now →
        result ≡ spec.end_objection (take k h) (Answered to n done) }
{
    let recalled = &tables.places.outgoing.recalled;
    let undone = is_before::<Undone>(&recalled.undone, to, n, k);
    let late = is_before::<Late>(&recalled.late, to, n, k);
    let asked = is_before::<Recalls>(&recalled.recalls, to, n, k);
    once_after(any(undone, late), asked, Objection::NotRecalled)
}

/// What stands against a message that leaves at a place.
fn out_objection(tables: &Tables, k: usize, to: u8, n: u64) -> Option<Objection>
    ensures { (rank : ℕ) (lines : List script_line.Line) (h : List event.Event) →
        AreRankTables rank lines h tables.now →
        result ≡ spec.end_objection (take k h) (Out to n) }
{
    let gone = &tables.places.outgoing.gone;
    let out = is_before::<Outs>(&gone.outs, to, n, k);
    let sent = is_before::<Sends>(&gone.sends, to, n, k);
    once_after(out, sent, Objection::NotSent)
}

/// What stands against a withdrawal, a message that leaves or the answer to a recall at a place.
pub fn end_objection(tables: &Tables, k: usize, what: &Happened) -> Option<Objection>
    ensures { (rank : ℕ) (lines : List script_line.Line) (h : List event.Event) →
        AreRankTables rank lines h tables.now →
        result ≡ spec.end_objection (take k h) what.now }
{
    match what {
        Happened::Withdraw { from, n, done } => withdraw_objection(tables, k, *from, *n, *done),
        Happened::Out { to, n } => out_objection(tables, k, *to, *n),
        Happened::Undone { to, n, done } => undone_objection(tables, k, *to, *n, *done),
        _ => None,
    }
}

/// A receive had taken a claimed message, or it was not claimed.
fn unclaimed(taken: bool, claimed: bool) -> Option<Objection>
    ensures { result ≡ (if taken then Some against.Taken
        else if claimed then None else Some against.NotClaimed) }
{
    if taken {
        return Some(Objection::Taken);
    }
    if claimed {
        None
    } else {
        Some(Objection::NotClaimed)
    }
}

/// What stands against the receive of a claimed message at a place.
pub fn match_objection(tables: &Tables, k: usize, what: &Happened) -> Option<Objection>
    ensures { (rank : ℕ) (lines : List script_line.Line) (h : List event.Event) →
        AreRankTables rank lines h tables.now →
        result ≡ spec.match_objection (take k h) what.now }
{
    match what {
        Happened::Match { from, n, .. } => {
            let claims = &tables.places.incoming.settled.claims;
            let claimed = is_before::<Claims>(claims, *from, *n, k);
            let taken = tables.pairing.is_taken(*from, *n, k);
            unclaimed(taken, claimed)
        }
        _ => None,
    }
}

/// What stands against a recall at a place.
fn recall_objection(tables: &Tables, k: usize, to: u8, n: u64) -> Option<Objection>
    ensures { (rank : ℕ) (lines : List script_line.Line) (h : List event.Event) →
        AreRankTables rank lines h tables.now →
        result ≡ spec.cancel_objection (take k h) (Recall to n) }
{
    let outgoing = &tables.places.outgoing;
    let recalled = is_before::<Recalls>(&outgoing.recalled.recalls, to, n, k);
    let sent = is_before::<Sends>(&outgoing.gone.sends, to, n, k);
    once_after(recalled, sent, Objection::NotSent)
}

/// What stands against the cancel of a receive or a recall at a place.
pub fn cancel_objection(tables: &Tables, k: usize, what: &Happened) -> Option<Objection>
    ensures { (rank : ℕ) (lines : List script_line.Line) (h : List event.Event) →
        AreRankTables rank lines h tables.now →
        result ≡ spec.cancel_objection (take k h) what.now }
{
    match what {
        Happened::Cancel { number, done } => {
            word_after(!tables.pairing.is_paired(*number, k), *done)
        }
        Happened::Recall { to, n } => recall_objection(tables, k, *to, *n),
        _ => None,
    }
}

//! What a log comes to, as text.

ghost use Rattle.std.specs.Prelude.{◌≡◌, ◌<◌, ◌^◌, IfOk};
ghost use Rattle.nm_multi.specs.Text.{bytes_got, got_of, log_text, shown as shown_lem};

use crate::{CallLog, Reply};
use nm_types::{Answer, Memory};
use std::alloc::Global;

/// The length of the message that a reply shows, if it shows one.
fn shown(reply: &Reply) -> Option<u64>
    ensures { result ≡ shown_lem reply.now }
{
    match reply {
        Reply::Ended(Answer::Got { body, .. }) => Some(body.len() as u64),
        _ => None,
    }
}

/// How many messages the replies show.
fn count_messages(log: &CallLog) -> u64
    ensures { result ≡ got_of log.now.entries }
{
    let mut got: u64 = 0;
    for entry in log.as_slice() {
        got += u64::from(shown(&entry.reply).is_some());
    }
    got
}

/// How many bytes the messages have that the replies show.
fn count_bytes(log: &CallLog) -> u64
    requires { bytes_got log.now.entries < 2 ^ 64 }
    ensures { result ≡ bytes_got log.now.entries }
{
    let mut bytes: u64 = 0;
    for entry in log.as_slice() {
        bytes += shown(&entry.reply).unwrap_or(0);
    }
    bytes
}

/// The text of a log: how many calls were made, how many messages were got, and how many bytes
/// these had.
pub fn text(alloc: Global, log: &CallLog, threads: u8, rounds: u16) -> Result<Vec<u8>, Memory>
    requires { bytes_got log.now.entries < 2 ^ 64 }
    ensures { IfOk result (λ text. text.items ≡ log_text threads rounds log.now.entries) }
{
    let got = count_messages(log);
    let bytes = count_bytes(log);
    let mut out = String::new(alloc);
    write!(out, "multi {threads} {rounds}\n")?;
    write!(out, "calls {}\n", log.len())?;
    write!(out, "got {got} bytes {bytes}\n")?;
    Ok(out.into_bytes())
}

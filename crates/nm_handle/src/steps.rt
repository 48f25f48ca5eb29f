//! What a rank does for its caller: a command, or a turn.

ghost use Rattle.std.specs.Prelude.{◌≡◌, ◌+◌, ◌<◌, ◌≢◌, true, None, Some, IfOk, length};
ghost use Rattle.nm_types.specs.Limits.{is_in_range};
ghost use Rattle.nm_calls.specs.Calling.{counted, gave, shown};
ghost use Rattle.nm_process.specs.Steps.{HasStepped};
ghost use Rattle.nm_world.specs.Actors.{did, seat_of};
ghost use Rattle.nm_world.specs.Players.{PlayerInvariant, PlaysOn};

use nm_calls::Calls;
use nm_calls::laws::{a_call_to_come_changes_nothing, a_call_to_come_is_next};
use nm_chain::seats::Steps;
use nm_copyring::Rings;
use nm_global::standing::laws::runs::a_command_runs;
use nm_outside::OpenGate;
use nm_port::Fabric;
use nm_process::Step;
use nm_rank::journal::Erased;
use nm_types::{Command, Memory, Packet};
use nm_world::Player;
use std::marker::Brand;
use std::sync::ledger::{Blank, Ledger};

/// Runs a command at the next line, if it can go on.
pub(crate) fn run(
    player: &mut Player<Calls, Erased>,
    f: &Fabric<Packet>,
    r: &Rings,
    command: &Command,
    line: u64,
) -> Result<Step, Memory>
    requires stands { PlayerInvariant shown gave f.now r.now player.old }
    requires in_range { is_in_range player.old.source.ranks command.now ≡ true }
    requires line { (line ≡ player.old.source.at + 2) × (player.old.source.at < 18446744073709551610) }
    requires idle { player.old.source.next ≡ None }
    ensures kept { IfOk result (λ _. PlayerInvariant shown gave f.now r.now player.new) }
    ensures ran { IfOk result
        (HasStepped command.now line player.old.actor.process player.new.actor.process) }
    ensures calls { IfOk result (λ step. player.new.source ≡ counted player.old.source command.now step) }
    ensures seat { IfOk result (λ _. seat_of player.new.actor ≡ seat_of player.old.actor) }
{
    // no step: that the history keeps its rules, that the calls are counted, and the laws of a call
    player.actor.process.rank().history();
    player.source.ranks();
    a_call_to_come_changes_nothing();
    a_call_to_come_is_next();
    a_command_runs();
    match player.actor.process.run(command, line)? {
        Step::Ran => {
            player.source.note(command);
            Ok(Step::Ran)
        }
        Step::Waits => Ok(Step::Waits),
    }
}

/// Puts a command ahead: turns run it as soon as it can go on.
pub(crate) fn put(
    player: &mut Player<Calls, Erased>,
    f: &Fabric<Packet>,
    r: &Rings,
    command: Command,
)
    requires stands { PlayerInvariant shown gave f.now r.now player.old }
    requires in_range { is_in_range player.old.source.ranks command ≡ true }
    requires room { player.old.source.at < 18446744073709551610 }
    requires idle { player.old.source.next ≡ None }
    ensures kept { PlayerInvariant shown gave f.now r.now player.new }
    ensures calls { player.new.source ≡ record player.old.source { next = Some command } }
    ensures actor { player.new.actor ≡ player.old.actor }
{
    // no step: that the calls are counted, and the law of a call to come
    player.source.ranks();
    a_call_to_come_changes_nothing();
    player.source.put(command);
}

// A turn, with a count of its word steps.
fn turn_on<L: Ledger>(
    player: &mut Player<Calls, Erased>,
    f: &Fabric<Packet>,
    r: &Rings,
    blank: Blank,
) -> Result<bool, Memory>
    requires name { (blank.name ≡ L.name) × (blank.parts ≡ L.parts) × (0 < L.parts) }
    requires stands { PlayerInvariant shown gave f.now r.now player.old }
    ensures kept { IfOk result (λ _. PlaysOn shown gave f.now r.now player.old player.new) }
    ensures moved { IfOk result (λ moved. moved ≡ did f.now.ranks player.old.actor player.new.actor) }
{
    let mut steps = Steps::<L>::new(blank);
    player.turn(f, r, &OpenGate, &mut steps)
}

/// A turn: it takes at most 140 word steps for each rank, and 2,048. It answers whether it did anything.
pub(crate) fn turn(
    player: &mut Player<Calls, Erased>,
    f: &Fabric<Packet>,
    r: &Rings,
) -> Result<bool, Memory>
    requires stands { PlayerInvariant shown gave f.now r.now player.old }
    ensures kept { IfOk result (λ _. PlaysOn shown gave f.now r.now player.old player.new) }
    ensures moved { IfOk result (λ moved. moved ≡ did f.now.ranks player.old.actor player.new.actor) }
{
    turn_on::<Brand>(player, f, r, Blank::new(1))
}

//! Laws of floods. Each is the contract of a function that does nothing.

ghost use Rattle.std.specs.Prelude.{◌≡◌, ℕ, ◌≤◌, Bool, true, IsTrue};
ghost use Rattle.std.specs.List.{list_all};
ghost use Rattle.nm_types.specs.declared.messages.Peer.TheVariants as peer;
ghost use Rattle.nm_types.specs.declared.messages.TagPick.TheVariants as pick;
ghost use Rattle.nm_types.specs.declared.scripts.Body.{Body};
ghost use Rattle.nm_types.specs.declared.scripts.Command.{Command};
ghost use Rattle.nm_types.specs.declared.scripts.Command.TheVariants.{Send, Recv, Wait};
ghost use Rattle.nm_types.specs.Limits.{IsScript};
ghost use Rattle.nm_script.specs.FloodScripts.{flood_lines};

/// A flood of at most 16,000 messages among at most 64 ranks keeps the limits of a script.
pub fn floods_keep_the_limits()
    ensures { (key ranks messages : ℕ) → 1 ≤ ranks → ranks ≤ 64 → messages ≤ 16000 →
        IsScript ranks (flood_lines key ranks messages) }
{}

/// Each command of a flood is a send, a receive that names its source and its tag, or a wait: it
/// passes each test that all of these pass.
pub fn floods_name_their_messages()
    ensures { (key ranks messages : ℕ) (test : Command → Bool) →
        ((q to tag ctx : ℕ) (body : Body) (sync : Bool) →
        test (Send to q tag ctx sync body) ≡ true) →
        ((q from tag ctx cap : ℕ) →
        test (Recv q (peer.One from) (pick.One tag) ctx cap) ≡ true) →
        ((q : ℕ) → test (Wait q) ≡ true) →
        IsTrue (list_all (λ line. test line.command) (flood_lines key ranks messages)) }
{}

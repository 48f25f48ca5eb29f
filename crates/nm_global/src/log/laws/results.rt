//! What a result shows of the log, and that it may be recorded.

ghost use Rattle.std.specs.Prelude.{◌≡◌, ℕ, Some, List, []};
ghost use Rattle.nm_types.specs.declared.answers.Answer.{Answer};
ghost use Rattle.nm_types.specs.declared.scripts.Command.TheVariants as command;
ghost use Rattle.nm_types.specs.Commands.{Numbered, command_at};
ghost use Rattle.nm_history.specs.declared.events.Event.{Event};
ghost use Rattle.nm_history.specs.Answers.{live};
ghost use Rattle.nm_history.specs.Sends.{Sent};
ghost use Rattle.nm_history.specs.Rules.{AreRight};
ghost use Rattle.nm_request.specs.declared.Kind.{Kind};
ghost use Rattle.nm_request.specs.declared.Req.{Req};
ghost use Rattle.nm_request.specs.Requests.{kind_of};
ghost use Rattle.nm_channels.specs.Moments.{LogEntry};
ghost use Rattle.nm_rank.specs.Ranks.{RankView, request_of};
ghost use Rattle.nm_rank.specs.Requests.{Finishes};
ghost use Rattle.nm_global.specs.Calls.{AnswersLogged, ShowsLogged};
ghost use Rattle.nm_global.specs.Logged.{IsLogged};

/// Where the result of a request (`Rank::finish`) shows a message, it shows the bytes of that message by
/// the log.
pub fn a_result_is_given()
    ensures { (eager : ℕ) (bodies : Sent → List ℕ) (commands : List Numbered)
        (v v' : RankView) (log : List LogEntry) (given : List ℕ) (r : Req) (k : Kind)
        (answer : Answer) → IsLogged eager bodies commands v log given →
        AreRight v.sizes.ranks [] v.events → kind_of v.requests r ≡ Some k →
        Finishes r answer v v' → ShowsLogged log v.events k answer }
{}

/// The result of a request may be recorded as the answer of a wait or a test of it.
pub fn a_result_may_be_recorded()
    ensures wait { (commands : List Numbered) (log : List LogEntry) (h : List Event) (line q : ℕ)
        (k : Kind) (answer : Answer) → command_at commands line ≡ Some (command.Wait q) →
        live commands h q ≡ Some (request_of k) → ShowsLogged log h k answer →
        AnswersLogged commands log h line answer }
    ensures test { (commands : List Numbered) (log : List LogEntry) (h : List Event) (line q : ℕ)
        (k : Kind) (answer : Answer) → command_at commands line ≡ Some (command.Test q) →
        live commands h q ≡ Some (request_of k) → ShowsLogged log h k answer →
        AnswersLogged commands log h line answer }
{}

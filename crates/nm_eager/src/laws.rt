//! Laws of the definitions. Each is the contract of a function that does nothing.

ghost use Rattle.std.specs.Prelude.{◌≡◌, ◌+◌, ◌-◌, ◌≤◌, ℕ, List, [], ◌∷◌, ◌++◌, length};
ghost use Rattle.nm_types.specs.declared.limits.TheConstants.{MAX_TAG};
ghost use Rattle.nm_types.specs.declared.packets.Packet.{Packet};
ghost use Rattle.nm_types.specs.declared.messages.How.TheVariants.{Eager};
ghost use Rattle.nm_history.specs.Sends.{Sent, envelope};
ghost use Rattle.nm_history.specs.Outgoing.{AreCalled, eager_packets};
ghost use Rattle.nm_eager.specs.Streams.{Stream, nothing_came, missing, begun, after_all, messages};
ghost use Rattle.nm_eager.specs.Streams.{stream_of, AllContinue, AreNumbered, carried_on, without};
ghost use Rattle.nm_eager.specs.Streams.{IsStream, IsWholeIn};

/// Packet by packet the messages of a list of packets come together, where each packet continues
/// its stream.
pub fn streams_have_their_messages()
    ensures { (eager : ℕ) (packets : List Packet) → AllContinue eager nothing_came packets
        → after_all nothing_came packets ≡ stream_of (messages packets) }
{}

/// The packets of a send's cut, joined behind what came before, give its body, and each of them
/// continues the stream. Alone they are one message, with the send's envelope and its body.
pub fn cuts_are_joined()
    ensures body { (from number : ℕ) (s : Sent) (body : List ℕ) (packets : List Packet)
        (stream : Stream) → s.len ≡ length body → s.n ≡ stream.count
        → AreNumbered 0 stream.count stream.messages
        → AreCalled from number (eager_packets s body) packets
        → after_all stream packets ≡ begun stream s.len body }
    ensures continues { (eager from number : ℕ) (s : Sent) (body : List ℕ) (packets : List Packet)
        (stream : Stream) → s.len ≡ length body → s.n ≡ stream.count
        → AreNumbered 0 stream.count stream.messages
        → AreCalled from number (eager_packets s body) packets
        → s.len ≤ eager → s.tag ≤ MAX_TAG → missing stream ≡ 0
        → AllContinue eager stream packets }
    ensures messages { (from number : ℕ) (s : Sent) (body : List ℕ) (packets : List Packet)
        → s.len ≡ length body → s.how ≡ Eager
        → AreCalled from number (eager_packets s body) packets
        → messages packets ≡ record { env = envelope from s; bytes = body } ∷ [] }
{}

/// How many bytes are missing after a message began, went on, or was taken.
pub fn missing_bytes_follow()
    ensures begins { (stream : Stream) (len : ℕ) (bytes : List ℕ)
        → missing (begun stream len bytes) ≡ missing stream + (len - length bytes) }
    ensures goes_on { (stream : Stream) (n : ℕ) (bytes : List ℕ) → IsStream stream
        → n + 1 ≡ stream.count → length bytes ≤ missing stream
        → missing (carried_on stream n bytes) + length bytes ≡ missing stream }
    ensures takes { (stream : Stream) (n : ℕ) → IsStream stream → IsWholeIn stream n
        → missing (without stream n) ≡ missing stream }
{}

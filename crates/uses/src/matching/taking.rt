//! Two receives, three messages, and a receive that comes late.

ghost use Rattle.std.specs.Prelude.{◌≡◌, IfOk, OnOk, Some, None, [], ◌∷◌};
ghost use Rattle.nm_types.specs.declared.messages.How.TheVariants.{Eager};
ghost use Rattle.nm_match.specs.Deeds.{history_of, is_known_message, is_known_receive};
ghost use Rattle.uses.specs.Story.{after_arrivals, after_posts, second_of_two};

use nm_match::Matcher;
use nm_types::{Arrival, Envelope, How, Memory, Peer, Post, TagPick};

/// A receive in context 0.
fn receive(number: u64, from: Peer, tag: TagPick) -> Post
    ensures { result ≡ record { number = number; from = from; tag = tag; ctx = 0; cap = 8 } }
{
    Post {
        number,
        from,
        tag,
        ctx: 0,
        cap: 8,
    }
}

/// A message of four bytes in context 0, the `n`-th of its sender.
fn message(from: u8, n: u64, tag: u16) -> Arrival
    ensures { result ≡ record {
      n = n;
      env = record { from = from; tag = tag; ctx = 0; len = 4; how = Eager };
    } }
{
    Arrival {
        n,
        env: Envelope {
            from,
            tag,
            ctx: 0,
            len: 4,
            how: How::Eager,
        },
    }
}

/// Posts receive 0, which names rank 2 and tag 5, and then receive 1, of any source and any tag.
fn post_both(m: &mut Matcher) -> Result<(), Memory>
    requires { m.old ≡ [] }
    ensures { OnOk result (m.new ≡ after_posts) }
{
    m.post(receive(0, Peer::One(2), TagPick::One(5)))?;
    m.post(receive(1, Peer::Any, TagPick::Any))?;
    Ok(())
}

/// Brings three messages: of rank 3 with tag 9, and two of rank 2 with tag 5. The answers are the
/// receives that take them. That of rank 3 goes to the wildcard, since the older receive doesn't
/// select it; the first of rank 2 goes to the receive that names it; the second finds none.
fn bring_three(m: &mut Matcher) -> Result<[Option<u64>; 3], Memory>
    requires { m.old ≡ after_posts }
    ensures taken { IfOk result (λ taken. taken ≡ Some 1 ∷ Some 0 ∷ None ∷ []) }
    ensures deeds { OnOk result (m.new ≡ after_arrivals) }
{
    let one = m.arrive(message(3, 0, 9))?;
    let two = m.arrive(message(2, 0, 5))?;
    let three = m.arrive(message(2, 1, 5))?;
    Ok([one, two, three])
}

/// What receives 0 and 1 and three messages come to, from the start.
pub fn first_three(m: &mut Matcher) -> Result<[Option<u64>; 3], Memory>
    requires { m.old ≡ [] }
    ensures taken { IfOk result (λ taken. taken ≡ Some 1 ∷ Some 0 ∷ None ∷ []) }
    ensures deeds { OnOk result (m.new ≡ after_arrivals) }
{
    post_both(m)?;
    bring_three(m)
}

/// Posts receive 2, of any source and any tag, behind those three messages. It takes the one that
/// found no receive.
pub fn late(m: &mut Matcher) -> Result<Option<Arrival>, Memory>
    requires { m.old ≡ after_arrivals }
    ensures { IfOk result (λ taken. taken ≡ Some second_of_two) }
{
    m.post(receive(2, Peer::Any, TagPick::Any))
}

//! Which start belongs to which: the sends and the receives of each channel, in order.

ghost use Rattle.std.specs.Prelude.{◌≡◌, ℕ, ◌<◌, ◌++◌, [], ◌∷◌, IfOk, OnOk, length, map};
ghost use Rattle.std.specs.Prelude.{if◌then◌else◌, None, Some, is_none, option_and_then, slice_get};
ghost use Rattle.std.specs.List.{range_with_len};
ghost use Rattle.nm_types.specs.declared.limits.TheConstants.{MAX_LINES};
ghost use Rattle.nm_sure.specs.declared.partners.Way as key;
ghost use Rattle.nm_sure.specs.Held.{held_at};
ghost use Rattle.nm_sure.specs.Ways as spec;
ghost use Rattle.nm_sure.specs.Ways.{AreAllIn, lines_at, partner_at, place_at, same_way};

use nm_types::{Command, Line, Memory, Peer, TagPick};
use std::alloc::Global;
use std::collections::HashMap;

/// From one rank to another, with a tag and a context.
#[derive(Clone, Copy, PartialEq, Eq, Hash)]
pub(crate) struct Way {
    pub(crate) from: u8,
    pub(crate) to: u8,
    pub(crate) tag: u16,
    pub(crate) ctx: u8,
}

/// The lines of the starts of each channel, in order.
type Starts = HashMap<Way, Vec<u64>>;

/// The channel of a send.
fn send_way(line: &Line) -> Option<Way>
    ensures { result ≡ spec.send_way line.now }
{
    match &line.command {
        Command::Send { to, tag, ctx, .. } => Some(Way {
            from: line.rank,
            to: *to,
            tag: *tag,
            ctx: *ctx,
        }),
        _ => None,
    }
}

/// The channel of a receive, if it names its source and its tag.
pub(crate) fn receive_way(line: &Line) -> Option<Way>
    ensures { result ≡ spec.receive_way line.now }
{
    match &line.command {
        Command::Recv {
            from: Peer::One(from),
            tag: TagPick::One(tag),
            ctx,
            ..
        } => Some(Way {
            from: *from,
            to: line.rank,
            tag: *tag,
            ctx: *ctx,
        }),
        _ => None,
    }
}

/// Puts a start of a channel behind the others, and answers its place.
fn put(alloc: Global, starts: &mut Starts, way: Way, number: u64) -> Result<usize, Memory>
    ensures place { IfOk result (λ place. place ≡ length (lines_at starts.old way)) }
    ensures ok { OnOk result ((w : key.Way) → lines_at starts.new w
        ≡ lines_at starts.old w ++ spec.number_if w (Some way) number) }
{
    let mut lines = starts.remove(&way).unwrap_or(Vec::new(alloc));
    let place = lines.len();
    lines.push(number)?;
    starts.insert(way, lines)?;
    Ok(place)
}

/// The start at a place of a channel.
fn nth(starts: &Starts, way: Way, place: usize) -> Option<u64>
    ensures { result ≡ slice_get (lines_at starts.now way) place }
{
    starts.get(&way)?.get(place).copied()
}

/// The starts of all channels that are taken, and the place that each has in its own.
#[derive(Drop)]
struct Placed {
    sends: Starts,
    receives: Starts,
    /// By line.
    places: Vec<Option<usize>>,
}

impl Placed {
    /// Puts a start that is taken, and answers its place.
    fn put(&mut self, alloc: Global, number: u64, line: &Line) -> Result<Option<usize>, Memory>
        ensures places { OnOk result (self.new.places.items ≡ self.old.places.items) }
        ensures place { IfOk result (λ place. place
            ≡ spec.place_in self.old.sends self.old.receives line.now) }
        ensures sends { OnOk result ((w : key.Way) → lines_at self.new.sends w
            ≡ lines_at self.old.sends w ++ spec.number_if w (spec.send_way line.now) number) }
        ensures receives { OnOk result ((w : key.Way) → lines_at self.new.receives w
            ≡ lines_at self.old.receives w ++ spec.number_if w (spec.receive_way line.now) number) }
    {
        if let Some(way) = send_way(line) {
            return Ok(Some(put(alloc, &mut self.sends, way, number)?));
        }
        match receive_way(line) {
            Some(way) => Ok(Some(put(alloc, &mut self.receives, way, number)?)),
            None => Ok(None),
        }
    }

    /// Puts a line, whose start is taken where its name stands for none.
    fn put_line(
        &mut self,
        alloc: Global,
        number: u64,
        line: &Line,
        held: Option<u64>,
    ) -> Result<(), Memory>
        ensures places { OnOk result (self.new.places.items ≡ self.old.places.items
            ++ (if is_none held then spec.place_in self.old.sends self.old.receives line.now
            else None) ∷ []) }
        ensures sends { OnOk result ((w : key.Way) → lines_at self.new.sends w
            ≡ lines_at self.old.sends w
            ++ (if is_none held then spec.number_if w (spec.send_way line.now) number else [])) }
        ensures receives { OnOk result ((w : key.Way) → lines_at self.new.receives w
            ≡ lines_at self.old.receives w
            ++ (if is_none held then spec.number_if w (spec.receive_way line.now) number else [])) }
    {
        let place = match held {
            Some(_) => None,
            None => self.put(alloc, number, line)?,
        };
        self.places.push(place)?;
        Ok(())
    }

    /// The start that the start at a place of its channel belongs to, if there is one.
    fn partner(&self, line: &Line, place: Option<usize>) -> Option<u64>
        ensures { result ≡ option_and_then
            (spec.partner_in self.now.sends self.now.receives line.now) place }
    {
        let place = place?;
        if let Some(way) = send_way(line) {
            return nth(&self.receives, way, place);
        }
        let way = receive_way(line)?;
        nth(&self.sends, way, place)
    }
}

/// The starts of all ranks that are taken.
fn place_starts(alloc: Global, lines: &[Line], held: &[Option<u64>]) -> Result<Placed, Memory>
    requires few { length lines.now < MAX_LINES }
    requires held { held.now ≡ map (held_at lines.now) (range_with_len 0 (length lines.now)) }
    ensures all { IfOk result (λ p. AreAllIn p.sends p.receives lines.now) }
    ensures places { IfOk result (λ p. p.places.items
        ≡ map (place_at lines.now) (range_with_len 0 (length lines.now))) }
{
    let mut placed = Placed {
        sends: HashMap::new(alloc),
        receives: HashMap::new(alloc),
        places: Vec::new(alloc),
    };
    for (k, line) in lines.iter().enumerate() {
        placed.put_line(alloc, k as u64 + 2, line, held[k])?;
    }
    Ok(placed)
}

/// The partner of each start that is taken, by line.
pub(crate) fn partners(
    alloc: Global,
    lines: &[Line],
    held: &[Option<u64>],
) -> Result<Vec<Option<u64>>, Memory>
    requires few { length lines.now < MAX_LINES }
    requires held { held.now ≡ map (held_at lines.now) (range_with_len 0 (length lines.now)) }
    ensures { IfOk result (λ partners. partners.items
        ≡ map (partner_at lines.now) (range_with_len 0 (length lines.now))) }
{
    let placed = place_starts(alloc, lines, held)?;
    let mut partners = Vec::new(alloc);
    for (k, line) in lines.iter().enumerate() {
        partners.push(placed.partner(line, placed.places[k]))?;
    }
    Ok(partners)
}

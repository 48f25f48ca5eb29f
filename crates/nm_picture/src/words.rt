//! Words of the picture.

ghost use Rattle.std.specs.Prelude.{◌≡◌, ◌++◌, IfOk, OnOk, string_bytes};
ghost use Rattle.nm_diagram.specs.Diagrams.{title_of};
ghost use Rattle.nm_picture.specs.Markup.{escaped, escaped_byte};

use nm_history::Event;
use nm_report::push_happened;
use std::alloc::{AllocError, Global};

/// Writes a byte of a text between tags.
fn push_byte(out: &mut String, byte: u8) -> Result<(), AllocError>
    ensures ok { OnOk result (string_bytes out.new ≡ string_bytes out.old ++ escaped_byte byte) }
{
    if byte == b'<' {
        out.push_str("&lt;")
    } else if byte == b'>' {
        out.push_str("&gt;")
    } else if byte == b'&' {
        out.push_str("&amp;")
    } else if byte >= b' ' && byte <= b'~' {
        out.push(byte as char)
    } else {
        out.push_str("?")
    }
}

/// Writes a text between tags: what markup gives a meaning is spelled out.
pub fn push_escaped(out: &mut String, text: &str) -> Result<(), AllocError>
    ensures ok { OnOk result (string_bytes out.new ≡ string_bytes out.old ++ escaped text.now) }
{
    for byte in text.as_bytes() {
        push_byte(out, *byte)?;
    }
    Ok(())
}

/// The title of an event: its rank, its stamp and its words.
pub fn title(alloc: Global, rank: u8, event: &Event) -> Result<String, AllocError>
    ensures { IfOk result (λ title. string_bytes title ≡ title_of rank event.now) }
{
    let mut title = String::new(alloc);
    write!(title, "rank {rank} at {}: ", event.stamp)?;
    push_happened(&mut title, &event.what)?;
    Ok(title)
}

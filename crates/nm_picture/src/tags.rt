//! The start tags that several shapes share.

ghost use Rattle.std.specs.Prelude.{◌≡◌, ◌++◌, OnOk, string_bytes};
ghost use Rattle.nm_picture.specs.Pictures.{line_tag, use_tag};

use std::alloc::AllocError;

/// The ends of a line.
#[derive(Clone, Copy)]
pub struct Ends {
    pub x1: u64,
    pub y1: u64,
    pub x2: u64,
    pub y2: u64,
}

/// Writes the start tag of a sign at a place, by the name of the group that draws it.
#[tactic(auto, unfolding(crate::specs::Pictures::use_tag))]
pub fn push_use(out: &mut String, name: &'static str, x: u64, y: u64) -> Result<(), AllocError>
    ensures ok { OnOk result
        (string_bytes out.new ≡ string_bytes out.old ++ use_tag name.now x y) }
{
    write!(out, "<use href=\"#{name}\" x=\"{x}\" y=\"{y}\">")
}

/// Writes the start tag of a line of a class.
#[tactic(auto, unfolding(crate::specs::Pictures::line_tag))]
pub fn push_line_tag(out: &mut String, class: &'static str, ends: Ends) -> Result<(), AllocError>
    ensures ok { OnOk result (string_bytes out.new
        ≡ string_bytes out.old ++ line_tag class.now ends.x1 ends.y1 ends.x2 ends.y2) }
{
    let Ends { x1, y1, x2, y2 } = ends;
    write!(
        out,
        "<line class=\"{class}\" x1=\"{x1}\" y1=\"{y1}\" x2=\"{x2}\" y2=\"{y2}\">"
    )
}

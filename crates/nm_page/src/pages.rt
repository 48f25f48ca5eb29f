//! The whole page.

ghost use Rattle.std.specs.Prelude.{◌≡◌, ◌≤◌, ◌++◌, IfOk, OnOk, length};
ghost use Rattle.nm_page.specs.Pages.{IsPageIn, doctype_text, end_text, facts_text, front_text, page_text};
ghost use Rattle.nm_page.specs.Pages.{pointing_text, queues_text, start_text};

use crate::texts::{DOCTYPE, FACTS, FRONT, POINTING, QUEUES};
use nm_diagram::Part;
use nm_picture::picture_in;
use nm_report::RunRecord;
use nm_types::Memory;
use std::alloc::{AllocError, Global};

/// Writes the first line.
#[tactic(auto, unfolding(crate::specs::Pages::doctype_text))]
fn push_doctype(out: &mut Vec<u8>) -> Result<(), AllocError>
    ensures ok { OnOk result (out.new.items ≡ out.old.items ++ doctype_text) }
{
    out.extend_from_slice(DOCTYPE.as_bytes())
}

/// Writes the title and the style.
#[tactic(auto, unfolding(crate::specs::Pages::front_text))]
fn push_front(out: &mut Vec<u8>) -> Result<(), AllocError>
    ensures ok { OnOk result (out.new.items ≡ out.old.items ++ front_text) }
{
    out.extend_from_slice(FRONT.as_bytes())
}

/// Writes what stands before the picture.
#[tactic(auto, unfolding(crate::specs::Pages::start_text))]
fn push_start(out: &mut Vec<u8>) -> Result<(), AllocError>
    ensures ok { OnOk result (out.new.items ≡ out.old.items ++ start_text) }
{
    push_doctype(out)?;
    push_front(out)
}

/// Writes the panels, and the first part of the script.
#[tactic(auto, unfolding(crate::specs::Pages::facts_text))]
fn push_facts(out: &mut Vec<u8>) -> Result<(), AllocError>
    ensures ok { OnOk result (out.new.items ≡ out.old.items ++ facts_text) }
{
    out.extend_from_slice(FACTS.as_bytes())
}

/// Writes the second part of the script.
#[tactic(auto, unfolding(crate::specs::Pages::pointing_text))]
fn push_pointing(out: &mut Vec<u8>) -> Result<(), AllocError>
    ensures ok { OnOk result (out.new.items ≡ out.old.items ++ pointing_text) }
{
    out.extend_from_slice(POINTING.as_bytes())
}

/// Writes the third part of the script, and the end.
#[tactic(auto, unfolding(crate::specs::Pages::queues_text))]
fn push_queues(out: &mut Vec<u8>) -> Result<(), AllocError>
    ensures ok { OnOk result (out.new.items ≡ out.old.items ++ queues_text) }
{
    out.extend_from_slice(QUEUES.as_bytes())
}

/// Writes what stands after the picture.
#[tactic(auto, unfolding(crate::specs::Pages::end_text))]
fn push_end(out: &mut Vec<u8>) -> Result<(), AllocError>
    ensures ok { OnOk result (out.new.items ≡ out.old.items ++ end_text) }
{
    push_facts(out)?;
    push_pointing(out)?;
    push_queues(out)
}

/// The page that holds a picture.
#[tactic(auto, unfolding(crate::specs::Pages::page_text))]
fn page_of(alloc: Global, picture: &[u8]) -> Result<Vec<u8>, AllocError>
    ensures { IfOk result (λ text. text.items ≡ page_text picture.now) }
{
    let mut out = Vec::new(alloc);
    push_start(&mut out)?;
    out.extend_from_slice(picture)?;
    push_end(&mut out)?;
    Ok(out)
}

/// The page of a part of a run.
pub fn page_in(alloc: Global, run: &RunRecord, part: Part) -> Result<Vec<u8>, Memory>
    requires few { length run.now.ranks ≤ 256 }
    requires in_range { (part.span.first ≤ 1000000) × (part.span.end ≤ 1000001) }
    requires lanes { part.lanes ≤ length run.now.ranks }
    ensures { IfOk result (λ text. IsPageIn part run.now text.items) }
{
    let picture = picture_in(alloc, run, part)?;
    Ok(page_of(alloc, &picture)?)
}

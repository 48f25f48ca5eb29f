//! The legend: the signs that stand in a picture, each with what it stands for.

ghost use Rattle.std.specs.Prelude.{◌≡◌, ◌≤◌, ◌++◌, OnOk, string_bytes};
ghost use Rattle.nm_diagram.specs.Legend.{legend_of};
ghost use Rattle.nm_picture.specs.Pictures.{row_sign, row_text, row_words, rows_text};

use nm_diagram::{Frame, Sign, all_signs, stands};
use nm_report::RankAccount;
use std::alloc::{AllocError, Global};

/// Writes the sign of a row of the legend.
#[tactic(auto, unfolding(crate::specs::Pictures::row_sign))]
fn push_row_sign(out: &mut String, row: u64, sign: Sign) -> Result<(), AllocError>
    requires { row ≤ 100 }
    ensures ok { OnOk result (string_bytes out.new ≡ string_bytes out.old ++ row_sign row sign) }
{
    let name = sign.name();
    let y = 106 + 20 * row;
    write!(out, "<use href=\"#{name}\" x=\"32\" y=\"{y}\"></use>")
}

/// Writes the words of a row of the legend.
#[tactic(auto, unfolding(crate::specs::Pictures::row_words))]
fn push_row_words(out: &mut String, row: u64, words: &str) -> Result<(), AllocError>
    requires { row ≤ 100 }
    ensures ok { OnOk result
        (string_bytes out.new ≡ string_bytes out.old ++ row_words row words.now) }
{
    let y = 110 + 20 * row;
    write!(out, "<text x=\"56\" y=\"{y}\">{words}</text>\n")
}

/// Writes a row of the legend.
#[tactic(auto, unfolding(crate::specs::Pictures::row_text))]
fn push_row(out: &mut String, row: u64, sign: Sign) -> Result<(), AllocError>
    requires { row ≤ 100 }
    ensures ok { OnOk result (string_bytes out.new ≡ string_bytes out.old ++ row_text row sign) }
{
    push_row_sign(out, row, sign)?;
    push_row_words(out, row, sign.words())
}

/// Writes the legend of these ranks.
pub fn push_legend(
    alloc: Global,
    out: &mut String,
    frame: &Frame,
    ranks: &[RankAccount],
) -> Result<(), AllocError>
    ensures ok { OnOk result (string_bytes out.new
        ≡ string_bytes out.old ++ rows_text 0 (legend_of frame.now.span ranks.now)) }
{
    let mut row = 0u64;
    for sign in all_signs() {
        if stands(alloc, frame.span, *sign, ranks)? {
            push_row(out, row, *sign)?;
            row += 1;
        }
    }
    Ok(())
}

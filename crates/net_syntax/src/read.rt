//! The network that a text gives.
ghost use Rattle.std.specs.Prelude.{◌≡◌, Ok, Err};
ghost use Rattle.tis_words.specs.Lines.{non_blank_lines};
ghost use Rattle.tis_words.specs.declared.comments.Comments.TheVariants.{BehindHash};
ghost use Rattle.net_syntax.specs.Forms.{lines_up_to};
ghost use Rattle.net_syntax.specs.FormView.{form_view};
ghost use Rattle.net_syntax.specs.Grammar.{next_number};
ghost use Rattle.net_syntax.specs.ReaderView.{Answers, IsError, configuration_view};
ghost use Rattle.net_syntax.specs.Reading.{Configuration as Seen, after_lines, after_version as lines_after_version, after_all as lines_after_all, net_at_end as net_of_end, net_of, tiles_of_line, and_then, net_with, head_of_line};
ghost use Rattle.net_syntax.specs.Refusals.{BadLine};
ghost use Rattle.net_syntax.specs.UnreadView.{form_within};
ghost use Rattle.net_tree.specs.View.{net_view};

use crate::error::NetError;
use crate::form::LineForm;
use crate::reader::{Configuration, after_line, net_at_end, refusal};
use crate::unread::next_form;
use net_tree::Net;
use std::alloc::Global;
use tis_base::Tiles;
use tis_words::{Comments, NonBlankLines, line_count};

// How many lines of a network aren't blank at most.
const LINES: u32 = 65_535;

// What a line says, where so many lines may still say something.
fn form_in(most: u32, form: LineForm) -> LineForm
    ensures { form_view result ≡ form_within most (form_view form) }
{
    if most == 0 { LineForm::Malformed } else { form }
}

// What all lines of a text make of the lines before it.
#[tactic(auto, unfolding(crate::specs::Reading::after_lines, crate::specs::Reading::and_then))]
fn after_text(
    alloc: Global,
    sofar: Configuration,
    lines: &mut NonBlankLines<'_>,
    most: u32,
) -> Result<Configuration, NetError>
    ensures { Answers configuration_view result (after_lines (configuration_view sofar) (lines_up_to most lines.old)) }
{
    let mut sofar = sofar;
    let mut left = most;
    'lines: while let Some((form, line)) = next_form(lines) {
        sofar = after_line(alloc, sofar, line, form_in(left, form))?;
        left = left.saturating_sub(1);
    }
    Ok(sofar)
}

// The refusal where a line is missing behind the last one.
fn missing_line(text: &[u8]) -> NetError
    ensures { IsError {Y = Seen} result (Err (BadLine (next_number text.now))) }
{
    match line_count(text).checked_add(1) {
        Some(line) => NetError::BadLine { line },
        None => NetError::NoMemory,
    }
}

// What the lines from the second one on make.
#[tactic(auto, unfolding(crate::specs::Reading::and_then))]
fn from_second(
    alloc: Global,
    line: usize,
    form: LineForm,
    behind: &mut NonBlankLines<'_>,
    most: u32,
) -> Result<Configuration, NetError>
    ensures { Answers configuration_view result (and_then (tiles_of_line line (form_view form)) (net_with (lines_up_to most behind.old))) }
{
    match form {
        LineForm::TilesLine(tiles) => after_text(
            alloc,
            Configuration::new(alloc, tiles),
            behind,
            most,
        ),
        other => Err(refusal(line, &other)),
    }
}

// What the lines behind the first one make.
fn after_version(
    alloc: Global,
    whole: &[u8],
    lines: &mut NonBlankLines<'_>,
    most: u32,
) -> Result<Configuration, NetError>
    ensures { Answers configuration_view result (lines_after_version (next_number whole.now) (lines_up_to most lines.old)) }
{
    let Some((form, line)) = next_form(lines) else {
        return Err(missing_line(whole));
    };
    let form = form_in(most, form);
    from_second(alloc, line, form, lines, most.saturating_sub(1))
}

// What the lines from the first one on make.
fn from_first(
    alloc: Global,
    whole: &[u8],
    line: usize,
    form: LineForm,
    behind: &mut NonBlankLines<'_>,
    most: u32,
) -> Result<Configuration, NetError>
    ensures { Answers configuration_view result (head_of_line line (form_view form) (lines_after_version (next_number whole.now) (lines_up_to most behind.old))) }
{
    match form {
        LineForm::Version => after_version(alloc, whole, behind, most),
        other => Err(refusal(line, &other)),
    }
}

// What all lines of a text make, of which so many may say something.
fn after_all(alloc: Global, text: &[u8], most: u32) -> Result<Configuration, NetError>
    ensures { Answers configuration_view result (lines_after_all (next_number text.now) (lines_up_to most (non_blank_lines BehindHash text.now))) }
{
    let mut lines = NonBlankLines::new(text, Comments::BehindHash);
    let Some((form, line)) = next_form(&mut lines) else {
        return Err(missing_line(text));
    };
    let form = form_in(most, form);
    from_first(alloc, text, line, form, &mut lines, most.saturating_sub(1))
}

/// The network that a text gives, or the first refusal.
#[tactic(auto, unfolding(crate::specs::Reading::and_then, crate::specs::Reading::net_of, crate::specs::Forms::lines_of))]
pub fn read_net(alloc: Global, bytes: &[u8]) -> Result<Net, NetError>
    ensures { Answers net_view result (net_of bytes.now) }
{
    let sofar = after_all(alloc, bytes, LINES)?;
    net_at_end(sofar)
}

//! What the lines of a text say, one after the other.
ghost use Rattle.std.specs.Prelude.{◌≡◌, MatchOption, []};
ghost use Rattle.net_syntax.specs.UnreadView.{IsNext};

use crate::form::{LineForm, form_of};
use tis_words::NonBlankLines;

/// What the next line says that isn't blank, and its number; or None where all lines are blank.
pub(crate) fn next_form(lines: &mut NonBlankLines<'_>) -> Option<(LineForm, usize)>
    ensures { MatchOption result (lines.old ≡ []) (λ f. IsNext lines.old f.0 f.1 lines.new) }
{
    let (number, line) = lines.next()?;
    Some((form_of(line), number))
}

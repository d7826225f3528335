//! What a line says by itself.
ghost use Rattle.std.specs.Prelude.{◌≡◌, option_and_then};
ghost use Rattle.tis_words.specs.Reads.{Found};
ghost use Rattle.net_syntax.specs.FormView.{form_view};
ghost use Rattle.net_tree.specs.View.{statement_view};
ghost use Rattle.net_syntax.specs.Forms.{put_of as put_said, sent_on as sent_by, statement_of as statement_said, version_of as version_said, said as form_said, form_of as form_written, keyword_of as keyword_said};
ghost use Rattle.tis_words.specs.Words.{words_in};

use crate::keyword::{Keyword, keyword_of};
use crate::links::{channel_of, port_of, process_of};
use crate::operands::{
    name_and_var, next_name, one_var, test_against_zero, two_names, two_vars, var_and_number,
    var_of,
};
use crate::rows::tiles_of;
use net_tree::{Name, Path, Statement, Test, Var};
use tis_base::Tiles;
use tis_words::{Words, value_of};

/// What a line says.
#[derive(Drop)]
pub(crate) enum LineForm {
    /// The first line.
    Version,
    /// The second line.
    TilesLine(Tiles),
    Input(Name, u8, Option<Path>),
    Output(Name, u8, Option<Path>),
    Channel(Name, Option<Path>),
    Process(Name, Option<u8>),
    /// A statement without a block.
    Simple(Statement),
    /// The first line of a statement with blocks.
    OpensIf(Var, Test),
    OpensWhile(Var, Test),
    OpensCount(Var),
    Else,
    End,
    /// Anything else.
    Malformed,
}

// What is sent on a name: a variable or a number.
fn sent_on(name: Name, word: &[u8]) -> Option<Statement>
    ensures { Found statement_view result (sent_by name word.now) }
{
    match var_of(word) {
        Some(var) => Some(Statement::Put(name, var)),
        None => Some(Statement::PutNumber(name, value_of(word)?)),
    }
}

// A name, and what is sent on it.
#[tactic(auto, unfolding(crate::specs::Forms::put_of, tis_words::specs::Parts::followed_by, tis_words::specs::Parts::next_word, tis_words::specs::Parts::at_end))]
fn put_of(words: &mut Words<'_>) -> Option<Statement>
    ensures { Found statement_view result (put_said words.old) }
{
    let name = next_name(words)?;
    let statement = sent_on(name, words.next()?)?;
    words.end()?;
    Some(statement)
}

// A statement without a block, by the words behind its first word.
#[tactic(auto, unfolding(crate::specs::Forms::statement_of, tis_words::specs::Parts::at_end))]
fn statement_of(keyword: Keyword, words: &mut Words<'_>) -> Option<Statement>
    ensures { Found statement_view result (statement_said keyword words.old) }
{
    match keyword {
        Keyword::Get => name_and_var(words).map(|(name, var)| Statement::Get(name, var)),
        Keyword::GetAdd => name_and_var(words).map(|(name, var)| Statement::GetAdd(name, var)),
        Keyword::GetSub => name_and_var(words).map(|(name, var)| Statement::GetSub(name, var)),
        Keyword::Put => put_of(words),
        Keyword::Move => two_names(words).map(|(read, written)| Statement::Move(read, written)),
        Keyword::Set => var_and_number(words).map(|(var, number)| Statement::Set(var, number)),
        Keyword::Add => var_and_number(words).map(|(var, number)| Statement::Add(var, number)),
        Keyword::Sub => var_and_number(words).map(|(var, number)| Statement::Sub(var, number)),
        Keyword::Neg => one_var(words).map(|var| Statement::Neg(var)),
        Keyword::Double => one_var(words).map(|var| Statement::Double(var)),
        Keyword::Copy => two_vars(words).map(|(to, from)| Statement::Copy(to, from)),
        Keyword::Swap => words.end().map(|_| Statement::Swap),
        _ => None,
    }
}

// What the first line has behind its first word.
#[tactic(auto, unfolding(crate::specs::Forms::version_of, tis_words::specs::Parts::followed_by, tis_words::specs::Parts::at_end))]
fn version_of(words: &mut Words<'_>) -> Option<LineForm>
    ensures { Found form_view result (version_said words.old) }
{
    words.next_exactly(b"1")?;
    words.end()?;
    Some(LineForm::Version)
}

// What a line says, by the words behind its first word.
#[tactic(auto, unfolding(crate::specs::Forms::said, tis_words::specs::Parts::at_end))]
fn said(keyword: Keyword, words: &mut Words<'_>) -> Option<LineForm>
    ensures { Found form_view result (form_said keyword words.old) }
{
    match keyword {
        Keyword::Net => version_of(words),
        Keyword::Tiles => tiles_of(words).map(|tiles| LineForm::TilesLine(tiles)),
        Keyword::Input => port_of(words).map(|(name, position, via)| LineForm::Input(
            name, position, via,
        )),
        Keyword::Output => port_of(words).map(|(name, position, via)| LineForm::Output(
            name, position, via,
        )),
        Keyword::Channel => channel_of(words).map(|(name, via)| LineForm::Channel(name, via)),
        Keyword::Process => process_of(words).map(|(name, at)| LineForm::Process(name, at)),
        Keyword::Else => words.end().map(|_| LineForm::Else),
        Keyword::End => words.end().map(|_| LineForm::End),
        Keyword::If => test_against_zero(words).map(|(var, test)| LineForm::OpensIf(var, test)),
        Keyword::While => test_against_zero(words).map(|(var, test)| LineForm::OpensWhile(
            var, test,
        )),
        Keyword::Count => one_var(words).map(|var| LineForm::OpensCount(var)),
        _ => statement_of(keyword, words).map(|statement| LineForm::Simple(statement)),
    }
}

// What a line says, by its words.
fn form_by(word: &[u8], words: &mut Words<'_>) -> Option<LineForm>
    ensures { Found form_view result (option_and_then (λ keyword. form_said keyword words.old) (keyword_said word.now)) }
{
    said(keyword_of(word)?, words)
}

/// What a line says that has words. What has none says nothing that is right.
#[tactic(auto, unfolding(crate::specs::Forms::form_of))]
pub(crate) fn form_of(line: &[u8]) -> LineForm
    ensures { form_view result ≡ form_written (words_in line.now) }
{
    let mut words = Words::new(line);
    let Some(word) = words.next() else {
        return LineForm::Malformed;
    };
    match form_by(word, &mut words) {
        Some(form) => form,
        None => LineForm::Malformed,
    }
}

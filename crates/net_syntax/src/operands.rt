//! The words behind the first word of a line.
ghost use Rattle.std.specs.Prelude.{◌≡◌};
ghost use Rattle.tis_words.specs.Reads.{Reads, Found};
ghost use Rattle.tis_words.specs.Parts.{exactly, next_word};
ghost use Rattle.net_syntax.specs.Forms.{var_of as var_word, test_of as test_word, name_of, name_and_var as name_then_var, two_names as both_names, var_and_number as var_then_number, one_var as var_alone, two_vars as both_vars, test_against_zero as tested};
ghost use Rattle.tis_words.specs.Numerals.{value_of as spelled_value};

use net_tree::{Name, Test, Var};
use tis_base::Value;
use tis_words::{Words, is};

// The variable that a word names.
pub(crate) fn var_of(word: &[u8]) -> Option<Var>
    ensures { result ≡ var_word word.now }
{
    if is(word, b"x") {
        Some(Var::X)
    } else if is(word, b"y") {
        Some(Var::Y)
    } else {
        None
    }
}

// How a word compares a variable with 0.
fn test_of(word: &[u8]) -> Option<Test>
    ensures { result ≡ test_word word.now }
{
    if is(word, b"=") {
        Some(Test::Zero)
    } else if is(word, b"!=") {
        Some(Test::NotZero)
    } else if is(word, b"<") {
        Some(Test::Negative)
    } else if is(word, b">") {
        Some(Test::Positive)
    } else if is(word, b"<=") {
        Some(Test::NotPositive)
    } else if is(word, b">=") {
        Some(Test::NotNegative)
    } else {
        None
    }
}

// The next word is a name.
#[tactic(auto, unfolding(tis_words::specs::Parts::next_word))]
pub(crate) fn next_name(words: &mut Words<'_>) -> Option<Name>
    ensures { Reads (λ name. name) result words.new (next_word name_of words.old) }
{
    Name::new(words.next()?)
}

// The next word is a variable.
#[tactic(auto, unfolding(tis_words::specs::Parts::next_word))]
fn next_var(words: &mut Words<'_>) -> Option<Var>
    ensures { Reads (λ var. var) result words.new (next_word var_word words.old) }
{
    var_of(words.next()?)
}

// The next word is a comparison.
#[tactic(auto, unfolding(tis_words::specs::Parts::next_word))]
fn next_test(words: &mut Words<'_>) -> Option<Test>
    ensures { Reads (λ test. test) result words.new (next_word test_word words.old) }
{
    test_of(words.next()?)
}

// A name and a variable.
#[tactic(auto, unfolding(crate::specs::Forms::name_and_var, tis_words::specs::Parts::followed_by, tis_words::specs::Parts::at_end))]
pub(crate) fn name_and_var(words: &mut Words<'_>) -> Option<(Name, Var)>
    ensures { Found (λ p. p) result (name_then_var words.old) }
{
    let name = next_name(words)?;
    let var = next_var(words)?;
    words.end()?;
    Some((name, var))
}

// Two names.
#[tactic(auto, unfolding(crate::specs::Forms::two_names, tis_words::specs::Parts::followed_by, tis_words::specs::Parts::at_end))]
pub(crate) fn two_names(words: &mut Words<'_>) -> Option<(Name, Name)>
    ensures { Found (λ p. p) result (both_names words.old) }
{
    let first = next_name(words)?;
    let second = next_name(words)?;
    words.end()?;
    Some((first, second))
}

// A variable and a number.
#[tactic(auto, unfolding(crate::specs::Forms::var_and_number, tis_words::specs::Parts::followed_by, tis_words::specs::Parts::at_end))]
pub(crate) fn var_and_number(words: &mut Words<'_>) -> Option<(Var, Value)>
    ensures { Found (λ p. p) result (var_then_number words.old) }
{
    let var = next_var(words)?;
    let number = words.next_value()?;
    words.end()?;
    Some((var, number))
}

// A variable alone.
#[tactic(auto, unfolding(crate::specs::Forms::one_var, tis_words::specs::Parts::followed_by, tis_words::specs::Parts::at_end))]
pub(crate) fn one_var(words: &mut Words<'_>) -> Option<Var>
    ensures { Found (λ p. p) result (var_alone words.old) }
{
    let var = next_var(words)?;
    words.end()?;
    Some(var)
}

// Two variables.
#[tactic(auto, unfolding(crate::specs::Forms::two_vars, tis_words::specs::Parts::followed_by, tis_words::specs::Parts::at_end))]
pub(crate) fn two_vars(words: &mut Words<'_>) -> Option<(Var, Var)>
    ensures { Found (λ p. p) result (both_vars words.old) }
{
    let first = next_var(words)?;
    let second = next_var(words)?;
    words.end()?;
    Some((first, second))
}

// A variable, how it is compared, and `0`.
#[tactic(auto, unfolding(crate::specs::Forms::test_against_zero, tis_words::specs::Parts::followed_by, tis_words::specs::Parts::at_end))]
pub(crate) fn test_against_zero(words: &mut Words<'_>) -> Option<(Var, Test)>
    ensures { Found (λ p. p) result (tested words.old) }
{
    let var = next_var(words)?;
    let test = next_test(words)?;
    words.next_exactly(b"0")?;
    words.end()?;
    Some((var, test))
}

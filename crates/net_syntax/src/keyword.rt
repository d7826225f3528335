//! The words that lines begin with.
ghost use Rattle.std.specs.Prelude.{◌≡◌};
ghost use Rattle.net_syntax.specs.Forms.{frame_keyword as frame_word, statement_keyword as statement_word, variable_keyword as variable_word, keyword_of as word_of};

use tis_words::is;

/// The first word of a line.
#[derive(Clone, Copy, Debug, PartialEq, Eq)]
pub(crate) enum Keyword {
    Net,
    Tiles,
    Input,
    Output,
    Channel,
    Process,
    Else,
    End,
    Get,
    GetAdd,
    GetSub,
    Put,
    Move,
    If,
    While,
    Count,
    Set,
    Add,
    Sub,
    Neg,
    Double,
    Copy,
    Swap,
}

// A word of the first two lines, of a declaration, or of a line between or behind blocks.
fn frame_keyword(word: &[u8]) -> Option<Keyword>
    ensures { result ≡ frame_word word.now }
{
    if is(word, b"net") {
        Some(Keyword::Net)
    } else if is(word, b"tiles") {
        Some(Keyword::Tiles)
    } else if is(word, b"input") {
        Some(Keyword::Input)
    } else if is(word, b"output") {
        Some(Keyword::Output)
    } else if is(word, b"channel") {
        Some(Keyword::Channel)
    } else if is(word, b"process") {
        Some(Keyword::Process)
    } else if is(word, b"else") {
        Some(Keyword::Else)
    } else if is(word, b"end") {
        Some(Keyword::End)
    } else {
        None
    }
}

// A word of a statement that reads or sends, or that opens a block.
fn statement_keyword(word: &[u8]) -> Option<Keyword>
    ensures { result ≡ statement_word word.now }
{
    if is(word, b"get") {
        Some(Keyword::Get)
    } else if is(word, b"getadd") {
        Some(Keyword::GetAdd)
    } else if is(word, b"getsub") {
        Some(Keyword::GetSub)
    } else if is(word, b"put") {
        Some(Keyword::Put)
    } else if is(word, b"move") {
        Some(Keyword::Move)
    } else if is(word, b"if") {
        Some(Keyword::If)
    } else if is(word, b"while") {
        Some(Keyword::While)
    } else if is(word, b"count") {
        Some(Keyword::Count)
    } else {
        None
    }
}

// A word of a statement on variables alone.
fn variable_keyword(word: &[u8]) -> Option<Keyword>
    ensures { result ≡ variable_word word.now }
{
    if is(word, b"set") {
        Some(Keyword::Set)
    } else if is(word, b"add") {
        Some(Keyword::Add)
    } else if is(word, b"sub") {
        Some(Keyword::Sub)
    } else if is(word, b"neg") {
        Some(Keyword::Neg)
    } else if is(word, b"double") {
        Some(Keyword::Double)
    } else if is(word, b"copy") {
        Some(Keyword::Copy)
    } else if is(word, b"swap") {
        Some(Keyword::Swap)
    } else {
        None
    }
}

/// The keyword that a word is, or None where it is none.
#[tactic(auto, unfolding(crate::specs::Forms::keyword_of))]
pub(crate) fn keyword_of(word: &[u8]) -> Option<Keyword>
    ensures { result ≡ word_of word.now }
{
    match frame_keyword(word) {
        Some(keyword) => Some(keyword),
        None => match statement_keyword(word) {
            Some(keyword) => Some(keyword),
            None => variable_keyword(word),
        },
    }
}

//! Laws of the grammar and of reading.
ghost use Rattle.lua_syntax.specs.Language.{ChunksAreRead, ChunksHaveOneTree, DeepTextsAreRefused, TextsAnswer};

/// What each text gives, by the grammar. A text that is read is a chunk of the grammar, with this tree, and no token of
/// it opens one construct more than 64. Where the syntax is refused, the line is that of the first token with which no
/// chunk goes on: some chunk begins with what stands before that token, and none with the token besides. Where the
/// text ends too early, that token is its end, which stands on the last line. Where it is nested too deep, some
/// chunk goes on with the token that is named, and it is the first in it that opens one construct more than 64.
pub fn texts_answer()
    ensures { TextsAnswer }
{}

/// Each chunk of the grammar is read, with the tree that the grammar gives, or it is nested too deep at the first
/// token that opens one construct more than 64.
pub fn chunks_are_read()
    ensures { ChunksAreRead }
{}

/// A text that begins as a chunk does, up to the first token of the chunk that opens one construct more than 64, is too deep
/// there, whatever comes behind that token.
pub fn deep_texts_are_refused()
    ensures { DeepTextsAreRefused }
{}

/// The grammar gives one tree at most for any tokens.
pub fn chunks_have_one_tree()
    ensures { ChunksHaveOneTree }
{}

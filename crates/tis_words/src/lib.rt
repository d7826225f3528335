//! Lines and words: what the texts of networks, grids, events and commands share.
//!
//! # What it is for
//!
//! - [`NonBlankLines`] gives the lines of a text that aren't blank, each with its number, and
//!   [`line_count`] counts all lines. Whether a `#` begins a comment is the caller's word ([`Comments`]).
//! - [`Words`] gives the words of a line from left to right: what stands between spaces and tabs.
//! - [`is`] compares a word with a text exactly, and [`is_in_either_case`] in letters of either case.
//! - [`number_of`] reads a word of digits, however many, and [`value_of`] a value from -999 to 999.
//!
//! # What the crates above use
//!
//! The words of a line are `line_words`, and the lines that aren't blank `non_blank_lines`: both are seen
//! as plain lists, so that a reader's contract speaks of what is left to read. A call of `Words` that finds
//! something else than it looks for answers None. What it leaves then is not said: a line that is wrong
//! isn't read on. A number is exact: no word of digits is taken for another number, and None is the answer
//! exactly where the word is no digits alone or the number is greater than the bound, which may be any
//! `u64`.
//!
//! # An example
//!
//! ```text
//! let mut lines = NonBlankLines::new(b"# tiles\n\n at 007 x", Comments::BehindHash);
//! let (number, line) = lines.next()?;    // 3, ` at 007 x`
//! let mut words = Words::new(line);
//! words.next_exactly(b"at")?;
//! words.next_number(99)?;                // 7
//! words.end()                            // None, since `x` is left
//! ```
//!
//! # What the calls cost
//!
//! No call takes memory. A line or a word is found by looking at each of its bytes once or twice.
//!
//! # What it doesn't do
//!
//! It doesn't know what a word means, reads no numeral of code (whose numbers are held at the ends of the
//! range), and cuts no text at its line ends: `lines` of `tis_base` does.
#![tactic(auto)]

mod comments;
mod letters;
mod lines;
mod numeral;
mod words;

pub use comments::{Comments, without_comment};
pub use letters::{capital_of, is_in_either_case};
pub use lines::{NonBlankLines, line_count};
pub use numeral::{number_of, value_of};
pub use words::{Words, is};

#[cfg(test)]
mod tests;

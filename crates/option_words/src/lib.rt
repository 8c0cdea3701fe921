//! The words of a command line's options: names, values, and what they give.
//!
//! To a caller [`read_options`] takes words and gives what the options at their beginning say, with the words
//! behind them. An option is two words, its name and its value: a number in decimal ([`number_in`]), or the
//! name of a file ([`FileName`]). Which options there are, for which form of a command line, and which
//! numbers each may have is the table of `specs/Options.antt`.
//!
//! Proved: the options are those of settings that the words spell, each at most once but for `--file`, and as
//! many as there are; a number is read exactly where the word is just as the number is written. No call but
//! the copies of names takes memory. The grammar is this project's own. Command lines are tried in
//! `worked_lines`.
#![tactic(auto)]

mod file_name;
mod files;
mod number;
mod option_key;
mod options;

pub use file_name::FileName;
pub use files::Files;
pub use number::{decimal_in, number_in};
pub use option_key::{Form, OptionKey};
pub use options::{Given, Options, read_options};

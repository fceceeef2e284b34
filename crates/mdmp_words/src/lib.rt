//! The words of the command line of `mdmp`, and what they ask for.
//!
//! [`invocation_of`] reads the words behind the program's name, by the crate `clap`. It gives an
//! [`Invocation`]: a command, whose numbers and types are read by the definitions of
//! `specs/NumberWords.antt`, `specs/OptionWords.antt` and `specs/TypeNames.antt`; the help that is asked
//! for; or why the words ask for nothing, as the first [`BadWord`] among them. It opens no file and prints nothing.
#![tactic(auto)]

mod asking;
mod bad_word;
mod command_line;
mod help;
mod invocation;
mod near_types;
mod number_words;
mod option_words;
mod type_names;

pub use crate::asking::invocation_of;
pub use crate::bad_word::{BadWord, NumberBounds, WordPlace, bounds_of};
pub use crate::invocation::{Command, Invocation};
pub use crate::near_types::nearest_type;
pub use crate::number_words::Span;
pub use mdmp_print::LineForm;

//! Lines of text and objects of JSON, put together of pieces.
//!
//! A [`Piece`] is a text whose length has a bound. A row of pieces ([`row!`]) is a piece too: its bound is
//! the sum of theirs, by its type. A [`Printer`] prints a piece; a [`LineOut`] does so by one test of
//! room, straight into its buffer. A [`LongText`] may be of any length: it is printed by as many pieces as
//! it takes.
//!
//! In an object a [`Json`] is a piece that knows which tokens it prints, and [`Members`] are some of
//! them with their commas. A [`Field`] is a piece of a line of text that knows its member. So a kind of
//! record is one row of fields, from which [`print_record`] prints either form.
//!
//! [`print_dump`], [`print_item`], [`print_symbols`], [`print_verdict`] and [`print_check_row`] print the lines of
//! `list` and `check`, [`print_hex_lines`] those of `hex`. What is said of an error is a piece, as [`ListWords`].
#![tactic(auto)]

mod bytes;
mod codeview;
mod digits;
mod element;
mod entry;
mod error_line;
mod exception;
mod extent;
mod fault_words;
mod fields;
mod form;
mod hex;
mod hex_lines;
mod ids;
mod in_buffer;
mod item;
mod json_strings;
mod json_text;
mod json_units;
mod line_out;
mod name;
mod number;
mod object_line;
mod part_outside;
mod parts;
mod piece;
mod printer;
mod record;
mod records;
mod stack;
mod symbols;
mod text;
mod values;
mod verdict;
mod version;

pub use crate::bytes::{LongBytes, SHORT, ShortBytes};
pub use crate::codeview::{BuildDigits, Cut, DebugId, Guid, GuidDigits, Signature};
pub use crate::entry::{At, AtMembers, EntryMember, EntryNumber};
pub use crate::error_line::{print_error, print_error_named};
pub use crate::exception::{Information, InformationMember};
pub use crate::extent::{PartMembers, PartText, RangeMembers, RangeText};
pub use crate::fault_words::{
    BudgetWords, ItemMember, ItemWords, KindWords, ListWords, OpenWords, SourceWords,
};
pub use crate::fields::{Field, LineEnd, ObjectOnly, RecordFields, Value};
pub use crate::form::LineForm;
pub use crate::hex::{Hex2, Hex4, Hex8, Hex16, Prefixed, ShortHex, UpperHex8};
pub use crate::hex_lines::print_hex_lines;
pub use crate::ids::{CodeIdMember, StampId, TypeNameMember};
pub use crate::in_buffer::slice_at;
pub use crate::item::{print_dump, print_item};
pub use crate::json_strings::LossyText;
pub use crate::json_text::{BytesValue, NameValue};
pub use crate::json_units::Quoted;
pub use crate::line_out::LineOut;
pub use crate::name::NameText;
pub use crate::object_line::{print_object, print_object_around};
pub use crate::part_outside::{OutsideWords, PartWords, print_check_row};
pub use crate::parts::{PartEnd, Parts};
pub use crate::piece::{LINE_ROOM, Piece};
pub use crate::printer::Printer;
pub use crate::record::{print_named_record, print_record};
pub use crate::stack::{Stack, StackStart};
pub use crate::symbols::{ModulePlace, print_symbols};
pub use crate::text::{LongText, print_around, print_parts};
pub use crate::values::{
    InQuotes, Json, JsonMember, LongValue, Members, NextMember, Null, Object, PlainPiece,
};
pub use crate::verdict::print_verdict;
pub use crate::version::{Build, Version};

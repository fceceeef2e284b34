//! Structures, names and CodeView records.
mod any_record;
mod codeview;
mod fields;
mod header;
mod records;
mod structures;
pub mod units;

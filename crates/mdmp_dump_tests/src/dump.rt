//! Tests of `mdmp_dump`.
pub mod built;
mod memory;
mod placed;
mod prefixes;
mod refused;
mod values;
pub mod view;

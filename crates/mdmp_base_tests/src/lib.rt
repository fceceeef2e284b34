//! Tests of `mdmp_source`, `mdmp_wire`, `mdmp_map`, `mdmp_index` and `mdmp_names`, by their public calls alone.
//!
//! A crate with tests is proved twice, so those of the libraries stand in crates on top, which
//! docs/LAYERS.md names. What is dear to prove of a test is a call with many clauses. So such calls stand
//! in small helper functions without a contract, which end by themselves where something fails that should
//! not. The tests hand on plain values, rows and steps.
#![tactic(auto)]

#[cfg(test)]
mod index;
#[cfg(test)]
mod map;
#[cfg(test)]
mod names;
#[cfg(test)]
mod refusals;
#[cfg(test)]
mod same;
#[cfg(test)]
mod source;
#[cfg(test)]
mod wire;

//! Tests of `mdmp_summary` and `mdmp_summary_lines`, by their public calls alone.
//!
//! `summing` makes the calls whose contracts are long, in helpers without a contract; the tests compare plain
//! values.
#![tactic(auto)]

#[cfg(test)]
mod check_rows;
#[cfg(test)]
mod contexts;
#[cfg(test)]
mod counter;
#[cfg(test)]
mod failures;
#[cfg(test)]
mod files;
#[cfg(test)]
mod given;
#[cfg(test)]
mod heaps;
#[cfg(test)]
mod ids;
#[cfg(test)]
mod lines;
#[cfg(test)]
mod objects;
#[cfg(test)]
mod prefixes;
#[cfg(test)]
mod regions;
#[cfg(test)]
mod same;
#[cfg(test)]
mod summaries;
#[cfg(test)]
mod summing;
#[cfg(test)]
mod visits;

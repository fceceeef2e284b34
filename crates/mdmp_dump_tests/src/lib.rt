//! Tests of `mdmp_dump` and `mdmp_writer`, by their public calls alone. Calls whose contracts are long
//! stand in helpers without a contract, and the tests compare plain values.
#![tactic(auto)]

#[cfg(test)]
mod dump;
#[cfg(test)]
mod faults;
#[cfg(test)]
mod files;
#[cfg(test)]
mod heaps;
#[cfg(test)]
mod memory_limit;
#[cfg(test)]
mod refusals;
#[cfg(test)]
mod same;
#[cfg(test)]
mod store_calls;
#[cfg(test)]
mod vectors;
#[cfg(test)]
mod viewed;
#[cfg(test)]
mod writer;

//! Tests of `mdmp_lister`, by its public calls alone.
//!
//! `given`, `opening`, `playing` and `walking` make the calls whose contracts are long, in helpers without a
//! contract; the tests compare what they give, which is plain values.
#![tactic(auto)]

#[cfg(test)]
mod addresses;
#[cfg(test)]
mod as_read;
#[cfg(test)]
mod aside_calls;
#[cfg(test)]
mod bounds;
#[cfg(test)]
mod budget;
#[cfg(test)]
mod calls;
#[cfg(test)]
mod changes;
#[cfg(test)]
mod checks;
#[cfg(test)]
mod choices;
#[cfg(test)]
mod codeview;
#[cfg(test)]
mod counts;
#[cfg(test)]
mod faults;
#[cfg(test)]
mod files;
#[cfg(test)]
mod given;
#[cfg(test)]
mod growths;
#[cfg(test)]
mod heads;
#[cfg(test)]
mod heaps;
#[cfg(test)]
mod listings;
#[cfg(test)]
mod memory;
#[cfg(test)]
mod memory_limit;
#[cfg(test)]
mod names;
#[cfg(test)]
mod opening;
#[cfg(test)]
mod parts;
#[cfg(test)]
mod playing;
#[cfg(test)]
mod prefixes;
#[cfg(test)]
mod ranges;
#[cfg(test)]
mod record_counts;
#[cfg(test)]
mod records;
#[cfg(test)]
mod refusals;
#[cfg(test)]
mod same;
#[cfg(test)]
mod script;
#[cfg(test)]
mod seeking;
#[cfg(test)]
mod shapes;
#[cfg(test)]
mod sinks;
#[cfg(test)]
mod six;
#[cfg(test)]
mod store_calls;
#[cfg(test)]
mod stores;
#[cfg(test)]
mod walkers;
#[cfg(test)]
mod walking;
#[cfg(test)]
mod windows;

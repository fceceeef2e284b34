//! Tests of the commands over stores and outputs, by the public calls of `mdmp_engines`, and of what they print by.
//!
//! `commands` makes the calls whose contracts are long, in functions without one or with a short one; `runs` runs them,
//! and gives plain values; and a test goes over the rows of a table.
#![tactic(auto)]

#[cfg(test)]
mod changes;
#[cfg(test)]
mod commands;
#[cfg(test)]
mod copies;
#[cfg(test)]
mod copy_fault_rows;
#[cfg(test)]
mod failing_outputs;
#[cfg(test)]
mod failing_stores;
#[cfg(test)]
mod fault_rows;
#[cfg(test)]
mod faults;
#[cfg(test)]
mod files;
#[cfg(test)]
mod growth_limits;
#[cfg(test)]
mod growths;
#[cfg(test)]
mod heaps;
#[cfg(test)]
mod line_outs;
#[cfg(test)]
mod list_ends;
#[cfg(test)]
mod list_faults;
#[cfg(test)]
mod lists;
#[cfg(test)]
mod long_lines;
#[cfg(test)]
mod memory_prints;
#[cfg(test)]
mod part_checks;
mod print_items;
#[cfg(test)]
mod prints;
#[cfg(test)]
mod runs;
#[cfg(test)]
mod same;
#[cfg(test)]
mod summary_ends;
#[cfg(test)]
mod summary_objects;
#[cfg(test)]
mod texts;
#[cfg(test)]
mod unopened;
#[cfg(test)]
mod watched;

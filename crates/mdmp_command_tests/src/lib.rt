//! Tests of the words of a command line, of the command lines, and of the commands over a source and two
//! outputs, by the public calls of `mdmp_words` and `mdmp_tool` alone. What a command line over files on disk
//! shows is in tests/command, which runs the program.
//!
//! `commands` makes the calls whose contracts are long, in helpers without a contract, which end a test by
//! themselves where a call fails that should not. A test goes over the rows of a table.
#![tactic(auto)]

#[cfg(test)]
mod asked_memory;
#[cfg(test)]
mod bad_requests;
#[cfg(test)]
mod bad_words;
#[cfg(test)]
mod commands;
#[cfg(test)]
mod disk_runs;
#[cfg(test)]
mod endings;
#[cfg(test)]
mod engine_statuses;
#[cfg(test)]
mod failing_outputs;
#[cfg(test)]
mod failing_stores;
#[cfg(test)]
mod failing_system;
#[cfg(test)]
mod file_blocks;
#[cfg(test)]
mod file_growths;
#[cfg(test)]
mod files;
#[cfg(test)]
mod growths;
#[cfg(test)]
mod limit_requests;
#[cfg(test)]
mod line_limits;
#[cfg(test)]
mod requests;
#[cfg(test)]
mod same;
#[cfg(test)]
mod shown_names;
#[cfg(test)]
mod spread_files;
#[cfg(test)]
mod standard_input;
#[cfg(test)]
mod summaries;
#[cfg(test)]
mod system_calls;
#[cfg(test)]
mod texts;

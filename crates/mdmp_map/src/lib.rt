//! Ranges of a dumped process's memory, in listing order.
//!
//! A [`Range`] says where the bytes of some addresses stand in the file. Ranges may overlap: the first
//! one in listing order that holds an address gives its byte. A [`Place`] is where that byte stands,
//! and how far one can read on from there. [`place_of`] finds it among ranges, and an [`AddressMap`]
//! holds ranges and finds it among them: by halves while each begins at or past the end of the one
//! before, else by a look at one after another. Where no range holds an address, it tells how far none
//! does; [`AddressMap::look_up`] tells both by one search, and [`AddressMap::look_up_counted`] counts
//! its [`Steps`]. A [`Paint`] finds the places of all addresses of a block by one look at each range in
//! any order. Addresses end at 2^64 - 1 and do not wrap. The definitions in `specs/Ranges.antt` say it
//! exactly, `specs/Finding.antt` tells in how many steps, `specs/Painting.antt` what is painted, and
//! `specs/RangeLaws.antt` has what follows from them.
//!
//! ```text
//! let mut map = AddressMap::with_room(alloc, 1)?;
//! map.push(0x1000, 16, 44);
//! let place = map.find(0x1004); // offset 48, 12 left
//! let gap = map.gap(0xff8); // 8
//! ```
//!
//! `crates/mdmp_base_tests` makes these calls.
#![tactic(auto)]

mod finding;
mod found;
mod halves;
mod map;
mod paint;
mod place;
mod range;
mod scan;
mod search;
mod steps;

pub use crate::finding::place_of;
pub use crate::found::Found;
pub use crate::map::AddressMap;
pub use crate::paint::{BLOCK, Paint, PaintedRun};
pub use crate::place::Place;
pub use crate::range::Range;
pub use crate::search::Search;
pub use crate::steps::Steps;

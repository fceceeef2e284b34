//! An index of memory ranges: an address is found among them by halves, whatever their order.
//!
//! Ranges of a dump come in listing order and may overlap: the first one that holds an address gives its
//! byte. [`index`] makes [`IndexSlot`]s of them that are sorted and do not overlap, at most two for each range,
//! in memory of the caller alone. Each slot belongs to the first range that holds its addresses, and says
//! where their bytes are. [`slot_at`] finds the slot of an address. `specs/Index.antt` defines an index.
//! Slots that are no index give some slot that holds the address, or none.
//!
//! For r ranges `index` takes O(r log r) steps, and `slot_at` O(log r).
//!
//! `crates/mdmp_base_tests` makes these calls.
#![tactic(auto)]

mod building;
mod cells;
mod ranges;
mod reading;
mod search;
mod slot;
mod taking;

pub use crate::building::index;
pub use crate::ranges::{Listed, Ranges};
pub use crate::reading::read;
pub use crate::search::{first_past, slot_at};
pub use crate::slot::IndexSlot;

//! A part of a text that is made a line at a time.
ghost use Rattle.std.specs.Prelude.{◌≡◌, ◌++◌, [], ℕ, List, IfOk, length, take};
ghost use Rattle.mdmp_c.specs.Fault.{no_memory};
ghost use Rattle.mdmp_c.specs.Giving.{Fails, GivesOrWants, told_count};
ghost use Rattle.mdmp_c.specs.TextPart.{IsPartOf};

use crate::fault::{PlainFault, of_kind};
use crate::giving::{copy_text, refuse};
use crate::kinds;
use crate::table::tell;
use std::alloc::{AllocError, Global};

/// What stands behind the first bytes of a text, as much of it as there is room for.
#[derive(Drop)]
pub(crate) struct TextPart {
    /// How many bytes of what comes next are passed over.
    skip: u64,
    /// How many bytes are kept at most.
    room: usize,
    /// How many bytes stood behind those that were passed over: the greatest number, where it is greater.
    size: u64,
    /// The first of them.
    kept: Vec<u8>,
}

impl TextPart {
    /// The part behind the first `skip` bytes of a text, of which nothing was given yet.
    pub fn new(alloc: Global, skip: u64, room: usize) -> Self
        ensures { IsPartOf skip room [] result.skip result.room result.size result.kept.items }
    {
        TextPart {
            skip,
            room,
            size: 0,
            kept: Vec::new(alloc),
        }
    }

    /// Takes the bytes that come next of the text.
    pub fn take(&mut self, text: &[u8]) -> Result<(), AllocError>
        ensures { (skip room : ℕ) (given : List ℕ) → IsPartOf skip room given self.old.skip self.old.room self.old.size self.old.kept.items
            → IfOk result (λ _. IsPartOf skip room (given ++ text.now) self.new.skip self.new.room self.new.size self.new.kept.items) }
    {
        let passed = self.skip.min(text.len() as u64);
        let rest = &text[passed as usize..];
        let fitting = rest.len().min(self.room.saturating_sub(self.kept.len()));
        self.kept.extend_from_slice(&rest[..fitting])?;
        self.skip -= passed;
        self.size = self.size.saturating_add(rest.len() as u64);
        Ok(())
    }

    /// Puts the part into a buffer that has its room, and tells how long it is and what is wrong with the
    /// file, unless memory was wanting.
    pub fn give(
        &self,
        told: PlainFault,
        out: &mut [u8],
        size: &mut u64,
        fault: &mut PlainFault,
    ) -> u32
        ensures gives { (part : List ℕ) → self.now.size ≡ told_count (length part) → self.now.kept.items ≡ take (length out.old) part
            → GivesOrWants told part result size.new fault.new out.old out.new }
        ensures wants { told ≡ no_memory → Fails no_memory result size.new fault.new out.old out.new }
    {
        if told.kind == kinds::NO_MEMORY {
            return refuse(of_kind(kinds::NO_MEMORY), size, fault);
        }
        copy_text(&self.kept, out);
        tell(self.size, told, out.len(), size, fault)
    }
}

//! A law of copies: the contract of a function that does nothing.
ghost use Rattle.std.specs.Prelude.{ℕ, List};
ghost use Rattle.mdmp_lister.specs.declared.limits.Limits.{Limits};
ghost use Rattle.mdmp_tool.specs.Standing.{CopyStands, Knows};
ghost use Rattle.mdmp_tool.specs.Words.{CopiesTo, DiskChange, Outputs};

use std::alloc::Allocator;

/// Where a disk knows the file that was copied, what stands under the name of the copy is the dump of
/// its streams of those types, or a first part of it, or nothing.
pub fn what_is_copied_stands<A: Allocator>()
    ensures { (F types file target : List ℕ) (limits : Limits) (status : ℕ) (disk : DiskChange) (before after : Outputs)
        → Knows disk.old file F → CopiesTo A types limits file target disk before status after → CopyStands A F types target disk before status after }
{}

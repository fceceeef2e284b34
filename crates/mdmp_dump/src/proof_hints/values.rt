//! The numbers of values fit the places that a file has for them: the hints of each kind.
//! Made by bindings/generate from bindings/kinds.toml.
ghost use Rattle.std.specs.Prelude.{◌≡◌, ◌<◌, ◌^◌, ℕ, length, slice_index};
ghost use Rattle.mdmp_dump.specs.Thread.{ThreadFits};
ghost use Rattle.mdmp_dump.specs.Module.{ModuleFits, VersionFits};
ghost use Rattle.mdmp_dump.specs.Memory.{MemoryFits};
ghost use Rattle.mdmp_dump.specs.Exception.{ExceptionFits};
ghost use Rattle.mdmp_dump.specs.System.{SystemFits};
ghost use Rattle.mdmp_dump.specs.Unloaded.{UnloadedFits};
ghost use Rattle.mdmp_dump.specs.MemoryInfo.{MemoryInfoFits};
ghost use Rattle.mdmp_dump.specs.ThreadName.{ThreadNameFits};

use crate::exception::Exception;
use crate::memory::MemoryRange;
use crate::module::Module;
use crate::proof_hints::{Fitting, name_fits};
use crate::system::System;
use crate::thread::Thread;
use crate::thread_name::ThreadName;
use crate::unloaded::Unloaded;
use mdmp_wire::{MemoryInfoRecord, VersionInfo};
use std::alloc::Allocator;

/// Each value has 64 bits.
fn values_fit(values: &[u64])
    ensures { (i : ℕ) → slice_index values.now i < 2 ^ 64 }
{}

/// An array has as many values as its type says.
fn values_are_15(values: &[u64; 15])
    ensures { length values.now ≡ 15 }
{}

/// An array has as many bytes as its type says.
fn bytes_are_24(bytes: &[u8; 24])
    ensures { length bytes.now ≡ 24 }
{}

impl<A: Allocator> Fitting for Thread<A> {
    ghost Fit = { ThreadFits };

    fn fits(&self) {
        self.thread_id.fits();
        self.suspend_count.fits();
        self.priority_class.fits();
        self.priority.fits();
        self.teb.fits();
        self.stack_start.fits();
        self.stack.fits();
        self.context.fits();
    }
}

impl Fitting for VersionInfo {
    ghost Fit = { VersionFits };

    fn fits(&self) {
        self.signature.fits();
        self.structure_version.fits();
        self.file_version_ms.fits();
        self.file_version_ls.fits();
        self.product_version_ms.fits();
        self.product_version_ls.fits();
        self.file_flags_mask.fits();
        self.file_flags.fits();
        self.file_os.fits();
        self.file_type.fits();
        self.file_subtype.fits();
        self.file_date_ms.fits();
        self.file_date_ls.fits();
    }
}

impl<A: Allocator> Fitting for Module<A> {
    ghost Fit = { ModuleFits };

    fn fits(&self) {
        self.base_of_image.fits();
        self.size_of_image.fits();
        self.checksum.fits();
        self.time_date_stamp.fits();
        self.reserved0.fits();
        self.reserved1.fits();
        name_fits(&self.name);
        self.version_info.fits();
        self.codeview.fits();
        self.misc.fits();
    }
}

impl<A: Allocator> Fitting for MemoryRange<A> {
    ghost Fit = { MemoryFits };

    fn fits(&self) {
        self.start.fits();
        self.bytes.fits();
    }
}

impl<A: Allocator> Fitting for Exception<A> {
    ghost Fit = { ExceptionFits };

    fn fits(&self) {
        self.thread_id.fits();
        self.exception_code.fits();
        self.exception_flags.fits();
        self.exception_record.fits();
        self.exception_address.fits();
        self.number_parameters.fits();
        values_fit(&self.exception_information);
        values_are_15(&self.exception_information);
        self.context.fits();
    }
}

impl<A: Allocator> Fitting for System<A> {
    ghost Fit = { SystemFits };

    fn fits(&self) {
        self.processor_architecture.fits();
        self.processor_level.fits();
        self.processor_revision.fits();
        self.number_of_processors.fits();
        self.product_type.fits();
        self.major_version.fits();
        self.minor_version.fits();
        self.build_number.fits();
        self.platform_id.fits();
        self.suite_mask.fits();
        self.reserved2.fits();
        bytes_are_24(&self.cpu);
        name_fits(&self.name);
    }
}

impl<A: Allocator> Fitting for Unloaded<A> {
    ghost Fit = { UnloadedFits };

    fn fits(&self) {
        self.base_of_image.fits();
        self.size_of_image.fits();
        self.checksum.fits();
        self.time_date_stamp.fits();
        name_fits(&self.name);
    }
}

impl Fitting for MemoryInfoRecord {
    ghost Fit = { MemoryInfoFits };

    fn fits(&self) {
        self.base_address.fits();
        self.allocation_base.fits();
        self.allocation_protect.fits();
        self.region_size.fits();
        self.state.fits();
        self.protect.fits();
        self.memory_type.fits();
    }
}

impl<A: Allocator> Fitting for ThreadName<A> {
    ghost Fit = { ThreadNameFits };

    fn fits(&self) {
        self.thread_id.fits();
        name_fits(&self.name);
    }
}

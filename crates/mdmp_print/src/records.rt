//! The lines of records, in either form.
ghost use Rattle.mdmp_source.specs.Output.{Puts};
ghost use Rattle.mdmp_print.specs.Forms.{in_form};
ghost use Rattle.mdmp_print.specs.ItemLines.{entry_line, exception_line, module_line, range_line, region_line, system_line, thread_line, thread_name_line, unloaded_line};
ghost use Rattle.mdmp_print.specs.Json.{object, object_line};
ghost use Rattle.mdmp_print.specs.JsonLines.{exception_members, module_members, range_members, region_members, stream_members, system_members, thread_members, thread_name_members, unloaded_members};

use crate::entry::{At, EntryMember, EntryNumber};
use crate::exception::Information;
use crate::extent::{PartText, RangeText};
use crate::fields::{Field, ObjectOnly};
use crate::form::LineForm;
use crate::hex::{Hex8, Hex16, Prefixed};
use crate::ids::{CodeIdMember, TypeNameMember};
use crate::printer::Printer;
use crate::record::{print_named_record, print_record};
use crate::stack::Stack;
use crate::values::{InQuotes, JsonMember, NextMember};
use crate::version::{Build, Version};
use crate::{fields, fields_and_name, row};
use mdmp_lister::{
    ExceptionItem, MemoryInfoItem, ModuleItem, RangeItem, StreamItem, SystemItem, ThreadItem,
    ThreadNameItem, UnloadedItem,
};
use mdmp_source::OutFailed;
use mdmp_summary::CodeId;

/// Prints an entry of the directory.
pub(crate) fn print_stream<O: Printer>(
    form: LineForm,
    item: &StreamItem,
    out: &mut O,
) -> Result<(), OutFailed>
    ensures { Puts result (O.state out.old)
        (in_form form (entry_line item.now) (object_line (object (stream_members item.now)))) (O.state out.new) }
{
    print_record(
        form,
        out,
        b"stream",
        fields![
            EntryNumber(item.entry),
            Field(b"type", item.stream_type),
            Field(b"size", item.location.size),
            Field(b"rva", item.location.rva),
            ObjectOnly(TypeNameMember(item.stream_type)),
        ],
    )
}

/// Prints a region.
pub(crate) fn print_region<O: Printer>(
    form: LineForm,
    item: &MemoryInfoItem,
    out: &mut O,
) -> Result<(), OutFailed>
    ensures { Puts result (O.state out.old)
        (in_form form (region_line item.now) (object_line (object (region_members item.now)))) (O.state out.new) }
{
    print_record(
        form,
        out,
        b"region",
        fields![
            At(item.entry, item.index),
            Field(b"base", Prefixed(Hex16(item.fields.base_address))),
            Field(b"allocation", Prefixed(Hex16(item.fields.allocation_base))),
            Field(b"initial", item.fields.allocation_protect),
            Field(b"size", item.fields.region_size),
            Field(b"state", item.fields.state),
            Field(b"protect", item.fields.protect),
            Field(b"type", item.fields.memory_type),
        ],
    )
}

/// Prints a module.
pub(crate) fn print_module<O: Printer>(
    form: LineForm,
    item: &ModuleItem<'_>,
    out: &mut O,
) -> Result<(), OutFailed>
    ensures { Puts result (O.state out.old)
        (in_form form (module_line item.now) (object_line (object (module_members item.now)))) (O.state out.new) }
{
    let version = &item.fields.version_info;
    print_named_record(
        form,
        out,
        b"module",
        fields_and_name![
            At(item.entry, item.index),
            Field(b"base", Prefixed(Hex16(item.fields.base_of_image))),
            Field(b"size", item.fields.size_of_image),
            Field(b"checksum", item.fields.checksum),
            Field(b"time", item.fields.time_date_stamp),
            Field(
                b"version",
                Version(version.file_version_ms, version.file_version_ls)
            ),
            Field(b"cv", PartText(item.codeview, item.fields.cv_record)),
            Field(b"misc", PartText(item.misc, item.fields.misc_record)),
        ],
        b"name",
        &item.name,
        row![
            CodeIdMember(CodeId::of_module(&item.fields)),
            NextMember(JsonMember(
                b"product_version",
                InQuotes(Version(version.product_version_ms, version.product_version_ls))
            )),
        ],
    )
}

/// Prints a thread.
pub(crate) fn print_thread<O: Printer>(
    form: LineForm,
    item: &ThreadItem,
    out: &mut O,
) -> Result<(), OutFailed>
    ensures { Puts result (O.state out.old)
        (in_form form (thread_line item.now) (object_line (object (thread_members item.now)))) (O.state out.new) }
{
    let stack = &item.fields.stack;
    let context = PartText(item.context, item.fields.thread_context);
    print_record(
        form,
        out,
        b"thread",
        fields![
            At(item.entry, item.index),
            Field(b"id", item.fields.thread_id),
            Field(b"suspend", item.fields.suspend_count),
            Field(b"class", item.fields.priority_class),
            Field(b"priority", item.fields.priority),
            Field(b"teb", Prefixed(Hex16(item.fields.teb))),
            Field(
                b"stack",
                Stack(
                    stack.start_of_memory_range,
                    PartText(item.stack, stack.memory)
                )
            ),
            Field(b"context", context),
        ],
    )
}

/// Prints a range.
pub(crate) fn print_range<O: Printer>(
    form: LineForm,
    item: &RangeItem,
    out: &mut O,
) -> Result<(), OutFailed>
    ensures { Puts result (O.state out.old)
        (in_form form (range_line item.now) (object_line (object (range_members item.now)))) (O.state out.new) }
{
    print_record(
        form,
        out,
        b"range",
        fields![
            At(item.entry, item.index),
            Field(b"start", Prefixed(Hex16(item.start))),
            RangeText {
                extent: item.extent,
                size: item.size,
                offset: item.offset,
            },
        ],
    )
}

/// Prints a module that was unloaded.
pub(crate) fn print_unloaded<O: Printer>(
    form: LineForm,
    item: &UnloadedItem<'_>,
    out: &mut O,
) -> Result<(), OutFailed>
    ensures { Puts result (O.state out.old)
        (in_form form (unloaded_line item.now) (object_line (object (unloaded_members item.now)))) (O.state out.new) }
{
    print_named_record(
        form,
        out,
        b"unloaded",
        fields_and_name![
            At(item.entry, item.index),
            Field(b"base", Prefixed(Hex16(item.fields.base_of_image))),
            Field(b"size", item.fields.size_of_image),
            Field(b"checksum", item.fields.checksum),
            Field(b"time", item.fields.time_date_stamp),
        ],
        b"name",
        &item.name,
        row![],
    )
}

/// Prints the name of a thread.
pub(crate) fn print_thread_name<O: Printer>(
    form: LineForm,
    item: &ThreadNameItem<'_>,
    out: &mut O,
) -> Result<(), OutFailed>
    ensures { Puts result (O.state out.old)
        (in_form form (thread_name_line item.now) (object_line (object (thread_name_members item.now)))) (O.state out.new) }
{
    print_named_record(
        form,
        out,
        b"threadname",
        fields_and_name![
            At(item.entry, item.index),
            Field(b"id", item.fields.thread_id)
        ],
        b"name",
        &item.name,
        row![],
    )
}

/// Prints an exception.
pub(crate) fn print_exception<O: Printer>(
    form: LineForm,
    item: &ExceptionItem,
    out: &mut O,
) -> Result<(), OutFailed>
    ensures { Puts result (O.state out.old)
        (in_form form (exception_line item.now) (object_line (object (exception_members item.now)))) (O.state out.new) }
{
    let context = PartText(item.context, item.fields.thread_context);
    print_record(
        form,
        out,
        b"exception",
        fields![
            ObjectOnly(EntryMember(item.entry)),
            Field(b"thread", item.fields.thread_id),
            Field(b"code", Prefixed(Hex8(item.fields.exception_code))),
            Field(b"flags", item.fields.exception_flags),
            Field(b"record", Prefixed(Hex16(item.fields.exception_record))),
            Field(b"address", Prefixed(Hex16(item.fields.exception_address))),
            Field(b"parameters", item.fields.number_parameters),
            Information {
                count: item.fields.number_parameters,
                values: &item.fields.exception_information,
            },
            Field(b"context", context),
        ],
    )
}

/// Prints the system.
pub(crate) fn print_system<O: Printer>(
    form: LineForm,
    item: &SystemItem<'_>,
    out: &mut O,
) -> Result<(), OutFailed>
    ensures { Puts result (O.state out.old)
        (in_form form (system_line item.now) (object_line (object (system_members item.now)))) (O.state out.new) }
{
    print_named_record(
        form,
        out,
        b"system",
        fields_and_name![
            ObjectOnly(EntryMember(item.entry)),
            Field(b"architecture", item.fields.processor_architecture as u32),
            Field(b"level", item.fields.processor_level as u32),
            Field(b"revision", item.fields.processor_revision as u32),
            Field(b"processors", item.fields.number_of_processors as u32),
            Field(b"product", item.fields.product_type as u32),
            Field(
                b"version",
                Build(
                    item.fields.major_version,
                    item.fields.minor_version,
                    item.fields.build_number
                )
            ),
            Field(b"platform", item.fields.platform_id),
            Field(b"suite", item.fields.suite_mask as u32),
        ],
        b"csd",
        &item.name,
        row![],
    )
}

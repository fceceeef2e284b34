//! The lines of a header and of the items of a listing.
ghost use Rattle.mdmp_source.specs.Output.{Puts};
ghost use Rattle.mdmp_print.specs.Forms.{dump_line_in, in_form, item_line_in};
ghost use Rattle.mdmp_print.specs.ItemLines.{item_line};
ghost use Rattle.mdmp_print.specs.Json.{object_line};
ghost use Rattle.mdmp_print.specs.JsonLines.{dump_object, item_object};
ghost use Rattle.mdmp_print.specs.Lines.{dump_line};

use crate::fields;
use crate::fields::Field;
use crate::form::LineForm;
use crate::hex::{Hex4, Hex16, Prefixed};
use crate::printer::Printer;
use crate::record::print_record;
use crate::records::{
    print_exception, print_module, print_range, print_region, print_stream, print_system,
    print_thread, print_thread_name, print_unloaded,
};
use mdmp_lister::Item;
use mdmp_source::OutFailed;
use mdmp_wire::Header;

/// Prints the line of a dump's header.
#[tactic(auto, using(crate::proofs::FormLemmas::in_dump))]
pub fn print_dump<O: Printer>(form: LineForm, header: &Header, out: &mut O) -> Result<(), OutFailed>
    ensures { Puts result (O.state out.old) (dump_line_in form header.now) (O.state out.new) }
{
    print_header(form, header, out)
}

fn print_header<O: Printer>(form: LineForm, header: &Header, out: &mut O) -> Result<(), OutFailed>
    ensures { Puts result (O.state out.old) (in_form form (dump_line header.now) (object_line (dump_object header.now))) (O.state out.new) }
{
    print_record(
        form,
        out,
        b"dump",
        fields![
            Field(b"version", Prefixed(Hex4((header.version / 65536) as u16))),
            Field(b"streams", header.number_of_streams),
            Field(b"directory", header.stream_directory_rva),
            Field(b"checksum", header.checksum),
            Field(b"time", header.time_date_stamp),
            Field(b"flags", Prefixed(Hex16(header.flags))),
        ],
    )
}

/// Prints the line of an item.
#[inline(always)]
#[tactic(auto, using(crate::proofs::FormLemmas::in_item))]
pub fn print_item<O: Printer>(form: LineForm, item: Item<'_>, out: &mut O) -> Result<(), OutFailed>
    ensures { Puts result (O.state out.old) (item_line_in form item.entry) (O.state out.new) }
{
    print_kind(form, item, out)
}

// By value: a record is then in a place of its own in each arm, and an item is never put together in memory.
#[inline(always)]
fn print_kind<O: Printer>(form: LineForm, item: Item<'_>, out: &mut O) -> Result<(), OutFailed>
    ensures { Puts result (O.state out.old) (in_form form (item_line item.entry) (object_line (item_object item.entry))) (O.state out.new) }
{
    match item {
        Item::Stream(item) => print_stream(form, &item, out),
        Item::Thread(item) => print_thread(form, &item, out),
        Item::Module(item) => print_module(form, &item, out),
        Item::Unloaded(item) => print_unloaded(form, &item, out),
        Item::Exception(item) => print_exception(form, &item, out),
        Item::System(item) => print_system(form, &item, out),
        Item::MemoryInfo(item) => print_region(form, &item, out),
        Item::ThreadName(item) => print_thread_name(form, &item, out),
        Item::Range(item) => print_range(form, &item, out),
    }
}

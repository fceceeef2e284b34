//! The parts of one record that lie outside the file.
ghost use Rattle.std.specs.Prelude.{◌≡◌};
ghost use Rattle.mdmp_lister.specs.declared.item.Item.TheVariants.{Exception, Module, Range, Thread};
ghost use Rattle.mdmp_summary.specs.Part.{if_outside, part_told, parts_outside, parts_told};

use crate::part::PartOutside;
use mdmp_lister::{ExceptionItem, Item, ModuleItem, RangeItem, ThreadItem};
use mdmp_source::Extent;
use mdmp_wire::PartName;

/// The parts of a record that lie outside the file, in the order of its fields.
#[derive(Clone, Copy, Debug, PartialEq, Eq)]
pub struct LostParts {
    /// Of a thread the stack, of a module the CodeView record, of an exception the context, of a range of memory
    /// its bytes, if they lie outside.
    pub first: Option<PartOutside>,
    /// Of a thread the context, of a module the miscellaneous debug record, if it lies outside.
    pub second: Option<PartOutside>,
}

/// The part, if its extent is outside the file.
fn outside(extent: Extent, part: PartOutside) -> Option<PartOutside>
    ensures { part_told result ≡ if_outside extent part }
{
    match extent {
        Extent::Outside => Some(part),
        Extent::Empty | Extent::Absent | Extent::Inside => None,
    }
}

impl LostParts {
    pub(crate) fn of_thread(x: &ThreadItem) -> Self
        ensures { parts_told result ≡ parts_outside (Thread x.now) }
    {
        let (entry, index) = (x.entry, x.index);
        let stack = PartOutside::located(entry, index, PartName::Stack, x.fields.stack.memory);
        let context = PartOutside::located(
            entry,
            index,
            PartName::Context,
            x.fields.thread_context,
        );
        LostParts {
            first: outside(x.stack, stack),
            second: outside(x.context, context),
        }
    }

    pub(crate) fn of_module(x: &ModuleItem<'_>) -> Self
        ensures { parts_told result ≡ parts_outside (Module x.now) }
    {
        let (entry, index) = (x.entry, x.index);
        let codeview = PartOutside::located(entry, index, PartName::CodeView, x.fields.cv_record);
        let misc = PartOutside::located(entry, index, PartName::Misc, x.fields.misc_record);
        LostParts {
            first: outside(x.codeview, codeview),
            second: outside(x.misc, misc),
        }
    }

    #[tactic(auto, using(crate::proofs::Folds::nothing_after))]
    pub(crate) fn of_exception(x: &ExceptionItem) -> Self
        ensures { parts_told result ≡ parts_outside (Exception x.now) }
    {
        let context = PartOutside::located(
            x.entry,
            x.index,
            PartName::Context,
            x.fields.thread_context,
        );
        LostParts {
            first: outside(x.context, context),
            second: None,
        }
    }

    #[tactic(auto, using(crate::proofs::Folds::nothing_after))]
    pub(crate) fn of_range(x: &RangeItem) -> Self
        ensures { parts_told result ≡ parts_outside (Range x.now) }
    {
        let memory = PartOutside {
            entry: x.entry,
            index: x.index,
            part: PartName::Memory,
            offset: x.offset,
            size: x.size,
        };
        LostParts {
            first: outside(x.extent, memory),
            second: None,
        }
    }

    /// Those of an item. There are none of an item without parts.
    pub fn of_item(item: &Item<'_>) -> Self
        ensures { parts_told result ≡ parts_outside item.now }
    {
        match item {
            Item::Thread(x) => LostParts::of_thread(x),
            Item::Module(x) => LostParts::of_module(x),
            Item::Exception(x) => LostParts::of_exception(x),
            Item::Range(x) => LostParts::of_range(x),
            Item::Stream(_)
            | Item::System(_)
            | Item::Unloaded(_)
            | Item::MemoryInfo(_)
            | Item::ThreadName(_) => LostParts {
                first: None,
                second: None,
            },
        }
    }
}

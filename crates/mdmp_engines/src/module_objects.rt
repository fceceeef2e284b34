//! The modules in the object of a summary.
ghost use Rattle.std.specs.Prelude.{◌≡◌, ◌≤◌, ℕ, List, Some, IfSome, length};
ghost use Rattle.mdmp_source.specs.Extent.{extent_of};
ghost use Rattle.mdmp_source.specs.Output.{HasRefused, Puts};
ghost use Rattle.mdmp_summary.specs.Symbols.{AreSymbolsOf, FitsBuffer};
ghost use Rattle.mdmp_engines.specs.ObjectVisits.{HasOut};
ghost use Rattle.mdmp_engines.specs.SummaryObject.{ids_in_class};

use mdmp_lister::{CodeViewBytes, Item, Stopped, StreamKind, Walker};
use mdmp_print::Printer;
use mdmp_source::{OutFailed, Store};
use mdmp_summary::{SymbolsRead, VisitEnd, Visitor, read_symbols};
use mdmp_summary_lines::{print_module_front, print_module_ids};
use mdmp_wire::ModuleRecord;
use std::alloc::Allocator;

/// A visitor that prints the object of each module: its name and its fields as it takes it, and its ids once its
/// CodeView record is read.
#[derive(Drop)]
pub(crate) struct ModuleObjects<'a, O: Printer, A: Allocator> {
    pub(crate) out: &'a mut O,
    /// The name of a symbol file is read into it.
    pub(crate) buffer: &'a mut Vec<u8, A>,
    /// The module whose ids are not printed yet.
    pub(crate) begun: Option<ModuleRecord>,
    /// Whether no module was printed yet.
    pub(crate) is_first: bool,
}

/// Prints the ids of a module whose CodeView record was read, the end of it into the buffer, or is not inside the file.
fn print_ids<O: Printer>(
    fields: &ModuleRecord,
    read: Option<SymbolsRead>,
    buffer: &[u8],
    out: &mut O,
) -> Result<(), OutFailed>
    requires { FitsBuffer (length buffer.now) read }
    ensures refuses { HasOut result (O.state out.old) (O.state out.new) }
    ensures puts { (file : List ℕ) (room : ℕ) → AreSymbolsOf file fields.now.cv_record room (extent_of fields.now.cv_record (length file)) read buffer.now
        → Puts result (O.state out.old) (ids_in_class file room fields.now (extent_of fields.now.cv_record (length file))) (O.state out.new) }
{
    match read {
        Some(read) => {
            // The prover wants an array in a variable of its own.
            let head = read.head;
            let rest = &buffer[..read.rest];
            let bytes = CodeViewBytes {
                head,
                rest,
                size: read.size,
            };
            print_module_ids(fields, Some(bytes), out)
        }
        None => print_module_ids(fields, None, out),
    }
}

impl<'a, O: Printer, A: Allocator> Visitor for ModuleObjects<'a, O, A> {
    ghost use Rattle.std.specs.Prelude.{◌≡◌, length};
    ghost use Rattle.mdmp_engines.specs.ObjectVisits.{LooksModule, TakesModule, module_cost, module_room};

    ghost taken = { λ old x result new. (new.out.ghost_name ≡ old.out.ghost_name) × TakesModule
        (record { out = O.state old.out.now; begun = old.begun; is_first = old.is_first; room = length old.buffer.now.items }) x result
        (record { out = O.state new.out.now; begun = new.begun; is_first = new.is_first; room = length new.buffer.now.items }) };

    ghost looked = { λ content limit old result new. (new.out.ghost_name ≡ old.out.ghost_name) × LooksModule content
        (record { out = O.state old.out.now; begun = old.begun; is_first = old.is_first; room = length old.buffer.now.items }) result
        (record { out = O.state new.out.now; begun = new.begun; is_first = new.is_first; room = length new.buffer.now.items }) };

    ghost owed = { λ k. module_cost (length k.buffer.now.items) k.begun };

    ghost span = { λ k. length k.buffer.now.items };

    ghost room = { module_room };

    fn wants(&self, kind: StreamKind) -> bool {
        match self.begun {
            // Any item ends it. A pass asks where none is begun.
            Some(_) => true,
            None => matches!(kind, StreamKind::Modules),
        }
    }

    fn take(&mut self, item: &Item<'_>) -> Result<(), Stopped> {
        self.begun = None;
        let Item::Module(module) = item else {
            return Ok(());
        };
        match print_module_front(self.is_first, module, self.out) {
            Ok(()) => {
                self.begun = Some(module.fields);
                self.is_first = false;
                Ok(())
            }
            Err(OutFailed) => Err(Stopped),
        }
    }

    fn look<S: Store + Drop, B: Allocator + Copy>(
        &mut self,
        walker: &mut Walker<S, B>,
    ) -> Result<(), VisitEnd> {
        let Some(fields) = self.begun else {
            return Ok(());
        };
        self.begun = None;
        match read_symbols(walker, fields.cv_record, self.buffer) {
            Ok(read) => match print_ids(&fields, read, self.buffer, self.out) {
                Ok(()) => Ok(()),
                Err(OutFailed) => Err(VisitEnd::Stopped),
            },
            Err(fault) => Err(VisitEnd::Source(fault)),
        }
    }
}

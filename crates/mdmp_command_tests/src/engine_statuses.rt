//! The status of a command over a store.
use crate::commands::Shown;
use mdmp_source::{PatchyOut, PatchyStore, Source};
use mdmp_test_support::{MeteredHeap, limits};
use mdmp_tool::{
    CheckEngine, Engine, EntryRows, HexEngine, LINE_ROOM, Limits, LineForm, LineOut, ListEngine,
    TypeSet, copy_and_report, print_and_report,
};
use std::alloc::Global;
use std::process::Abort;

/// The status of an engine that prints, in the smallest blocks.
fn engine_status<E: Engine>(
    rt: &impl Abort,
    alloc: Global,
    heap: &MeteredHeap<Global>,
    engine: E,
    store: PatchyStore<'_>,
    limits: Limits,
    out: &mut PatchyOut<Global>,
    err: &mut PatchyOut<Global>,
) -> u8
    requires { E.can_print engine }
{
    let mut buffer = vec![in alloc; 0; LINE_ROOM].expect(rt, "memory for a block");
    let mut blocks = LineOut::over(&mut buffer, out);
    let source = Source::new(store);
    print_and_report(engine, heap, source, limits, &mut blocks, err).answer
}

/// The status of a command that prints; of memory, two bytes from the address 16 on.
pub fn print_status(
    rt: &impl Abort,
    alloc: Global,
    heap: &MeteredHeap<Global>,
    shown: Shown,
    store: PatchyStore<'_>,
    limits: Limits,
    out: &mut PatchyOut<Global>,
    err: &mut PatchyOut<Global>,
) -> u8 {
    let form = match shown {
        Shown::VerdictObjects | Shown::Objects => LineForm::Json,
        _ => LineForm::Text,
    };
    match shown {
        Shown::Verdicts | Shown::VerdictObjects => {
            let rows = EntryRows;
            let engine = CheckEngine { form, rows };
            engine_status(rt, alloc, heap, engine, store, limits, out, err)
        }
        Shown::Memory => {
            let engine = HexEngine {
                alloc: heap,
                address: 16,
                length: 2,
            };
            engine_status(rt, alloc, heap, engine, store, limits, out, err)
        }
        _ => {
            let pdb = !matches!(shown, Shown::Items);
            let aside = limits.aside;
            let engine = ListEngine { form, pdb, aside };
            engine_status(rt, alloc, heap, engine, store, limits, out, err)
        }
    }
}

/// The status of a copy.
pub fn copy_status(
    rt: &impl Abort,
    heap: &MeteredHeap<Global>,
    types: &[u32],
    store: PatchyStore<'_>,
    limits: Limits,
    out: &mut PatchyOut<Global>,
    err: &mut PatchyOut<Global>,
) -> u8 {
    let types = TypeSet::new(types).expect(rt, "types");
    copy_and_report(heap, types, Source::new(store), limits, out, err).answer
}

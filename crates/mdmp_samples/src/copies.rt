//! Streams of a dump, copied.

use crate::digest::summary_of;
use mdmp_lister::{Limits, TypeSet};
use mdmp_source::{FileStore, Out, WriteOut};
use mdmp_tool::run_copy;
use std::io::Write;

/// Types of streams of a dump that are copied.
#[derive(Clone, Copy)]
pub struct Chosen {
    dump: &'static str,
    types: &'static [u32],
}

/// Those which another program copied too.
pub static CHOSEN: [Chosen; 6] = [
    Chosen {
        dump: "crashpad-one.dmp",
        types: &[3, 4, 5, 6, 7, 15, 24, 1129316353, 1265303554],
    },
    Chosen {
        dump: "lldb19-crash-stack.dmp",
        types: &[
            3, 4, 5, 6, 7, 15, 1197932547, 1197932548, 1197932550, 1197932551, 1197932552,
            1197932553, 1197932555,
        ],
    },
    Chosen {
        dump: "llvm-all-kinds.dmp",
        types: &[
            0, 3, 4, 5, 6, 7, 10, 11, 16, 1197932547, 1197932553, 1297699672,
        ],
    },
    Chosen {
        dump: "llvm-empty.dmp",
        types: &[3, 7],
    },
    Chosen {
        dump: "llvm-x86.dmp",
        types: &[3, 6, 7],
    },
    Chosen {
        dump: "wine8-child-normal.dmp",
        types: &[0, 3, 4, 5, 7, 15],
    },
];

/// Prints how long the copy of a dump's chosen streams is, and its SHA-256. None where there is no copy, or its
/// answer is not how many bytes went out.
pub fn tell_copy(rt: &HostRuntime, chosen: &Chosen) -> Option<()> {
    let Chosen { dump, types } = chosen;
    let mut out = WriteOut::new(Vec::new(rt.alloc()));
    let size = copy_to(rt, dump, types, &mut out)?;
    let copy = out.into_inner();
    if copy.len() as u64 != size {
        return None;
    }
    let summary = summary_of(rt.alloc(), &copy)?;
    writeln!(rt.stdout(), "{dump}: copy of types {types:?} has {summary}").ok()
}

/// Copies to this output, and gives what is answered.
fn copy_to<O: Out>(rt: &HostRuntime, dump: &str, types: &[u32], out: &mut O) -> Option<u64> {
    let types = TypeSet::new(types)?;
    let store = FileStore::open(rt, dump).ok()?;
    run_copy(rt.alloc(), store, Limits::default(), types, out).ok()
}

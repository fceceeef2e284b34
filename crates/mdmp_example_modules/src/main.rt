//! Prints the base and the name of each module of a dump that has one: the library in use, for the
//! README.
#![tactic(auto)]

use mdmp_dump::{Stream, read_dump};
use mdmp_lister::{Choice, Limits, TypeSet};
use mdmp_source::{FileStore, Source};
use std::test::Fail;

fn main(rt: HostRuntime) -> Result<(), Fail> {
    let source = Source::new(FileStore::open(&rt, "crash.dmp")?);
    let choice = Choice::Types(TypeSet::new(&[4]).ok_or("types")?);
    let dump = read_dump(rt.alloc(), source, Limits::default(), choice, 1 << 20)?;
    for stream in &dump.streams {
        if let Stream::Modules(modules) = stream {
            for module in modules {
                if let Some(name) = &module.name {
                    let name = name.view().to_utf8(rt.alloc())?;
                    println!(rt; "{:#x} {name}", module.base_of_image)?;
                }
            }
        }
    }
    Ok(())
}

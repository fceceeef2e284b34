//! Reads the dump IN into a value and writes that to OUT, which it makes or empties: the writer in use.
#![tactic(auto)]

use mdmp_dump::read_dump;
use mdmp_lister::{Choice, Limits};
use mdmp_source::{FileStore, Source, WriteOut};
use mdmp_writer::write_dump;
use std::test::Fail;
use std::{env, fs};

fn main(rt: HostRuntime) -> Result<(), Fail> {
    let mut words = env::args(&rt)?.skip(1);
    let input = words.next().ok_or("IN OUT")?;
    let output = words.next().ok_or("IN OUT")?;
    let source = Source::new(FileStore::open(&rt, &input)?);
    let dump = read_dump(rt.alloc(), source, Limits::default(), Choice::All, u64::MAX)?;
    let mut out = WriteOut::new(fs::create(&rt, &output)?);
    let mut buffer = [0; 4096];
    let size = write_dump(&mut dump.view(), &mut out, &mut buffer)?;
    println!(rt; "{size} bytes")?;
    Ok(())
}

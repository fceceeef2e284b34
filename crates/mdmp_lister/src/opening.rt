//! The header and the directory of a file, read through a source.
ghost use Rattle.std.specs.Prelude.{◌≡◌, ◌≤◌, ◌-◌, ◌*◌, [], length, IfOk, MatchResult, None, OnOk, Some, vec_len, vec_capacity};
ghost use Rattle.mdmp_source.specs.Range.{IsInside};
ghost use Rattle.mdmp_wire.specs.Header.{header_at};
ghost use Rattle.mdmp_lister.specs.Format.Directory.{IsDirectory};
ghost use Rattle.mdmp_lister.specs.Format.Refusal.{directory_refusal};
ghost use Rattle.mdmp_lister.specs.Fetching.{Reads};
ghost use Rattle.mdmp_lister.specs.NextFetch.{TriesDirectory};
ghost use Rattle.mdmp_lister.specs.Holding.{fills_of};
ghost use Rattle.mdmp_lister.specs.Meter.{Books};
ghost use Rattle.mdmp_lister.specs.Opening.{IsHeaderIn, IsNextChosen, ReadsHeader};

use crate::choice::Choice;
use crate::fault::{FetchFault, OpenFault};
use crate::fetching::first_of;
use crate::holding::hold;
use crate::meter::Meter;
use mdmp_source::{Source, Store, Window, inside};
use mdmp_wire::{Entry, Header, HeaderFault, Record};
use std::alloc::Allocator;

/// A refusal of a file, which hands its source back.
#[derive(Drop)]
pub struct OpenRefused<S: Store + Drop> {
    /// Why the file can't be listed.
    pub fault: OpenFault,
    /// The source that was to be listed. Its counts have risen by what was fetched.
    pub source: Source<S>,
}

/// The header of a file of `size` bytes, of which these are the first 32, or the first fault of it and of
/// the place of its directory.
fn header_in(bytes: &[u8], size: u64) -> Result<Header, OpenFault>
    requires whole { length bytes.now ≡ 32 }
    requires room { 32 ≤ size }
    ensures { IsHeaderIn bytes.now size result }
{
    let header = match Header::check(bytes) {
        Ok(header) => header,
        Err(HeaderFault::BadSignature) => return Err(OpenFault::BadSignature),
        Err(HeaderFault::BadVersion { low }) => return Err(OpenFault::BadVersion { low }),
    };
    let offset = u64::from(header.stream_directory_rva);
    let len = Entry::SIZE as u64 * u64::from(header.number_of_streams);
    if !inside(offset, len, size) {
        return Err(OpenFault::DirectoryOutside { offset, size: len });
    }
    Ok(header)
}

/// The header of a file that stands in memory, `MINIDUMP_HEADER`, or its first fault: too few bytes, the
/// signature, the version, a directory outside the file. No other fault is told of it.
pub fn header_of(file: &[u8]) -> Result<Header, OpenFault>
    ensures header { MatchResult result
        (λ header. (directory_refusal file.now ≡ None) × (header ≡ header_at file.now 0))
        (λ fault. directory_refusal file.now ≡ Some fault) }
    ensures inside { IfOk result (λ header. IsInside header.stream_directory_rva (12 * header.number_of_streams) (length file.now)) }
{
    let size = file.len() as u64;
    if size < Header::SIZE as u64 {
        return Err(OpenFault::TooShort { size });
    }
    header_in(&file[..Header::SIZE], size)
}

/// Fetches the header of a file whose directory lies inside it.
#[tactic(auto, using(crate::proofs::Budgets::over_fetched, crate::proofs::Budgets::over_obtained, crate::proofs::Budgets::header_tried, crate::proofs::Budgets::header_obtained))]
pub(crate) fn read_header<S: Store>(meter: &mut Meter<S>) -> Result<Header, OpenFault>
    ensures { ReadsHeader meter.old result meter.new }
{
    let size = meter.size();
    if size < Header::SIZE as u64 {
        return Err(OpenFault::TooShort { size });
    }
    let mut bytes = [0; Header::SIZE];
    meter.fetch(0, &mut bytes)?;
    header_in(&bytes, size)
}

/// Reads the entries of the directory, whose place lies inside the file, through a window into a list with
/// room for them.
pub(crate) fn read_directory<S: Store, A: Allocator>(
    meter: &mut Meter<S>,
    window: &mut Window<A>,
    header: Header,
    entries: &mut Vec<Entry, A>,
) -> Result<(), FetchFault>
    requires inside { IsInside header.stream_directory_rva (12 * header.number_of_streams) meter.old.source.size }
    requires window { 12 ≤ window.old.room }
    requires room { (entries.old.items ≡ []) × (header.number_of_streams ≤ vec_capacity entries.old) }
    ensures count { OnOk result (vec_len entries.new ≡ header.number_of_streams) }
    ensures capacity { vec_capacity entries.new ≡ vec_capacity entries.old }
    ensures kept { window.new.room ≡ window.old.room }
    ensures reads { Reads window.old.room (Books (fills_of (12 * header.number_of_streams) (window.old.room - 11)) (12 * header.number_of_streams)) (λ file _. header ≡ header_at file 0 → IsDirectory file entries.new.items)
        result meter.old meter.new }
    ensures tries { TriesDirectory window.old.room header result meter.old meter.new }
{
    if header.number_of_streams == 0 {
        // An empty directory may stand anywhere.
        return Ok(());
    }
    let first = u64::from(header.stream_directory_rva);
    let size = Entry::SIZE as u64 * u64::from(header.number_of_streams);
    window.start(first, first + size);
    for number in 0..header.number_of_streams {
        let at = first + Entry::SIZE as u64 * u64::from(number);
        hold(meter, window, at, Entry::SIZE)?;
        entries.push_reserved(first_of(&window.bytes()[..Entry::SIZE]));
    }
    Ok(())
}

/// The number of the first chosen entry from `from` on.
pub(crate) fn next_chosen(entries: &[Entry], from: usize, choice: &Choice) -> Option<usize>
    requires { from ≤ length entries.now }
    ensures { IsNextChosen choice.now from entries.now result }
{
    let mut at = from;
    while at < entries.len() {
        if choice.has(entries[at].stream_type) {
            return Some(at);
        }
        at += 1;
    }
    None
}

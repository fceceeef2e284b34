//! An open file of the system, and where it stands.
ghost use Rattle.std.specs.Prelude.{◌≡◌, ◌≢◌, ◌≤◌, None, Some, length, IfOk};
ghost use Rattle.mdmp_source.specs.Files.{IsFileRead, ReadsBehindSeek};

use crate::calls::AskedFile;
use crate::store::StoreFailed;

/// An open file, which is sought only where it is not known to stand at the place already: so bytes that
/// are read one behind the other take one call of the system each time.
#[derive(Drop)]
pub(crate) struct PlacedFile<F> {
    file: F,
    /// Where the file stands: behind the bytes that the last read gave, and unknown before the first read
    /// and behind one that failed.
    place: Option<u64>,
}

impl<F: AskedFile> PlacedFile<F> {
    /// A file that stands nowhere that is known.
    pub(crate) fn new(file: F) -> Self
        ensures { result ≡ record { file = file; place = None } }
    {
        PlacedFile { file, place: None }
    }

    /// Reads some of the bytes at `at` into the front of `out`, and answers how many: by one read, behind
    /// one seek where the file is not known to stand there. It fails where either does.
    pub(crate) fn read_at(&mut self, at: u64, out: &mut [u8]) -> Result<usize, StoreFailed>
        ensures bound { IfOk result (λ k. k ≤ length out.new) }
        ensures read { IsFileRead F.may_seek F.may_read self.old at result out.new self.new }
    {
        let answer = read_from(&mut self.file, self.place, at, out);
        self.place = match answer {
            Ok(count) => at.checked_add(count as u64),
            Err(_) => None,
        };
        answer
    }
}

/// Reads some of the bytes at `at` into the front of `out`, of a file that stands at `place`, or that is
/// not known to stand anywhere.
fn read_from<F: AskedFile>(
    file: &mut F,
    place: Option<u64>,
    at: u64,
    out: &mut [u8],
) -> Result<usize, StoreFailed>
    ensures bound { IfOk result (λ k. k ≤ length out.new) }
    ensures sought { place ≢ Some at → ReadsBehindSeek F.may_seek F.may_read file.old at result out.new file.new }
    ensures stands { place ≡ Some at → F.may_read file.old result out.new file.new }
{
    if place != Some(at) {
        file.ask_seek(at)?;
    }
    file.ask_read(out)
}

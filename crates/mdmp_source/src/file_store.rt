//! A file of the system.
ghost use Rattle.std.specs.Prelude.{◌≡◌, ◌≤◌, length, IfOk};

use crate::blocked_file::{BLOCK, BlockedFile};
use crate::calls::{AskedFile, AskedSystem, Described};
use crate::store::{Store, StoreCounts, StoreFailed};
use std::alloc::{Alloc, Allocator, Global};
use std::fs::Metadata;
use std::io::{Read, Seek};
use std::rt::Files;

/// An open file of the system, whose size is taken once. No contract knows its bytes.
///
/// The store holds a block of the file, of at most 16 KiB. If the block holds the byte at the place of a call of
/// `read_at`, the call is answered from the block, as far as that goes. Else a call for less than 16 KiB reads a
/// block at its place, and is answered from that block; a call for 16 KiB or more goes past the block.
///
/// A block that is read at a new place has 512 bytes. If calls follow each other and use half of the block, the
/// next one has twice as many bytes, up to 16 KiB; a call elsewhere begins with 512 again. If a call asks for more,
/// the block has as many bytes as it asks for. So many names in a row take one call of the system together, and
/// few bytes far from all others cost 512.
///
/// A read is one call of the system, and one seek before it if the file does not stand at the place. If either
/// fails, the read fails and the block holds nothing.
///
/// The bytes of an answer are as old as the block: of a file that changes while it is read, a call may give
/// what was there when an earlier one read the block.
// Several blocks would serve lists whose records and names take turns. A window of a block or more, as it is
// by default, goes past the block, so that one is enough.
#[derive(Drop)]
pub struct FileStore<F, A: Allocator = Global> {
    file: BlockedFile<F, A>,
    size: u64,
    counts: StoreCounts,
}

impl<F: Read + Seek + AskedFile + Described + Drop, A: Allocator> FileStore<F, A> {
    ghost use Rattle.std.specs.Prelude.{◌≡◌, IfOk, OnErr, None, false};
    ghost use Rattle.std.specs.Fs.{metadata_len};
    ghost use Rattle.mdmp_source.specs.BlockedFile.{HoldsNoBlock, file_of};
    ghost use Rattle.mdmp_source.specs.Files.{HasFileSize, IsOpenRefused};
    ghost use Rattle.mdmp_source.specs.Store.{IsNew};

    /// Opens the file at `path` for reading, and takes the memory of the block, which is all that the store
    /// ever takes. Every refusal of the system is `StoreFailed`, and so is want of memory. Nothing else is.
    pub fn open<R: Files<File = F> + Alloc<A = A> + AskedSystem<F, A>>(
        rt: &R,
        path: &str,
    ) -> Result<Self, StoreFailed>
        ensures new { IfOk result (λ store. IsNew (⟦<FileStore<F, A> as Store>⟧.state store) None false) }
        ensures file { IfOk result (λ store. R.may_open rt.now path.now (file_of store.file)) }
        ensures size { IfOk result (λ store. HasFileSize F.may_have (file_of store.file) (⟦<FileStore<F, A> as Store>⟧.state store).size) }
        ensures unread { IfOk result (λ store. HoldsNoBlock BLOCK store.file) }
        ensures refused { OnErr result (IsOpenRefused (R.may_refuse rt.now path.now) (R.may_open rt.now path.now) F.may_hide
            (R.may_lack rt.now BLOCK)) }
    {
        let file = rt.ask_open(path)?;
        let metadata = file.described()?;
        let buffer = rt.ask_room(BLOCK)?;
        Ok(FileStore::of_size(BlockedFile::new(buffer, file), &metadata))
    }

    /// A store over an open file of this metadata.
    fn of_size(file: BlockedFile<F, A>, metadata: &Metadata) -> Self
        ensures new { IsNew (⟦<FileStore<F, A> as Store>⟧.state result) None false }
        ensures size { result.size ≡ metadata_len metadata.now }
        ensures file { result.file ≡ file }
    {
        FileStore {
            file,
            size: metadata.len(),
            counts: StoreCounts::new(),
        }
    }
}

impl<F: Read + Seek + AskedFile, A: Allocator> Store for FileStore<F, A> {
    ghost use Rattle.std.specs.Prelude.{◌≡◌, ◌≤◌, IfOk, None, false, length};
    ghost use Rattle.mdmp_source.specs.BlockedFile.{IsBlockedRead};
    ghost use Rattle.mdmp_source.specs.Store.{StoreState, counts_after};

    ghost state = { λ s. record {
      content = None;
      size = s.size;
      is_reliable = false;
      least = 0;
      counts = s.counts;
    } };

    fn size(&self) -> u64 {
        self.size
    }

    fn read_at(&mut self, at: u64, out: &mut [u8]) -> Result<usize, StoreFailed>
        ensures bound { IfOk result (λ k. k ≤ length out.new) }
        ensures state { self.new ≡ record self.old {
          file = self.new.file;
          counts = counts_after self.old.counts result at (length out.new);
        } }
        ensures read { IsBlockedRead F.may_seek F.may_read self.old.file at result out.new self.new.file }
    {
        let answer = self.file.read_at(at, out);
        self.counts.count(&answer, at, out.len());
        answer
    }
}

//! An open file, whose small reads are answered from a block.
ghost use Rattle.std.specs.Prelude.{◌≡◌, ◌≤◌, length, vec_capacity, vec_len, IfOk};
ghost use Rattle.mdmp_source.specs.BlockedFile.{IsBlockedRead, IsFilledRead, IsReadPast, HoldsNoBlock};

use crate::calls::AskedFile;
use crate::file_block::FileBlock;
use crate::placed_file::PlacedFile;
use crate::store::StoreFailed;
use std::alloc::Allocator;

/// How many bytes a block holds at most: a read of fewer is answered from it.
pub(crate) const BLOCK: usize = 16384;

/// An open file, of which a read is answered from the block that was read last, if that holds the byte at its
/// place. Else a read of fewer bytes than a block holds reads a block there, as far as its reach goes (`FileBlock`),
/// and a read of more goes past the block.
#[derive(Drop)]
pub(crate) struct BlockedFile<F, A: Allocator> {
    file: PlacedFile<F>,
    block: FileBlock<A>,
}

impl<F: AskedFile, A: Allocator> BlockedFile<F, A> {
    /// A file of which nothing was read. The memory of the block is that of `buffer`, which is empty.
    pub(crate) fn new(buffer: Vec<u8, A>, file: F) -> Self
        requires { vec_len buffer ≡ 0 }
        ensures file { result.file.file ≡ file }
        ensures unread { HoldsNoBlock (vec_capacity buffer) result }
    {
        BlockedFile {
            file: PlacedFile::new(file),
            block: FileBlock::over(buffer),
        }
    }

    /// Reads some of the bytes at `at` into the front of `out`, and answers how many. Behind a read that
    /// failed the block holds nothing.
    pub(crate) fn read_at(&mut self, at: u64, out: &mut [u8]) -> Result<usize, StoreFailed>
        ensures bound { IfOk result (λ k. k ≤ length out.new) }
        ensures read { IsBlockedRead F.may_seek F.may_read self.old at result out.new self.new }
    {
        if self.block.holds(at) {
            Ok(self.block.give(at, out))
        } else if out.len() < self.block.room() {
            self.read_filled(at, out)
        } else {
            self.read_past(at, out)
        }
    }

    /// Reads a block at `at`, and answers from it.
    fn read_filled(&mut self, at: u64, out: &mut [u8]) -> Result<usize, StoreFailed>
        ensures bound { IfOk result (λ k. k ≤ length out.new) }
        ensures read { IsFilledRead F.may_seek F.may_read self.old at result out.new self.new }
    {
        self.block.fill(&mut self.file, at, out.len())?;
        Ok(self.block.give(at, out))
    }

    /// Reads past the block.
    fn read_past(&mut self, at: u64, out: &mut [u8]) -> Result<usize, StoreFailed>
        ensures bound { IfOk result (λ k. k ≤ length out.new) }
        ensures read { IsReadPast F.may_seek F.may_read self.old at result out.new self.new }
    {
        let answer = self.file.read_at(at, out);
        if answer.is_err() {
            self.block.clear();
        }
        answer
    }
}

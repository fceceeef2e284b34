//! The calls that this crate makes of what it is given, each with the answers that it may have.
//!
//! No contract of std says how often something is called, or when a call fails. Each trait here has a relation for a call:
//! which answer it may have. Code over the trait is proved whatever the relation is. So that code makes just the calls that
//! its contract names, and answers as they do. Each type of std's trait has the trait too.
ghost use Rattle.std.specs.Prelude.{◌≡◌, ◌≤◌, ◌||◌, length, take, vec_capacity, vec_len, IfOk, OnErr, is_err, is_ok};
ghost use Rattle.mdmp_source.specs.Output.{Keeps, Takes, refused_if};
ghost use Rattle.mdmp_source.specs.Store.{is_empty_answer};

use crate::output::{Out, OutFailed};
use crate::store::StoreFailed;
use std::alloc::{Alloc, Allocator};
use std::fs;
use std::fs::{Metadata, OpenFile};
use std::io::{Read, Seek, SeekFrom, Write};
use std::rt::Files;

/// An output, of which each call is told apart.
pub(crate) trait AskedOut: Out {
    ghost use Rattle.std.specs.Prelude.{ℕ, List, Result};
    ghost use Rattle.mdmp_source.specs.declared.output.OutFailed.{OutFailed};

    /// Whether an output that is handed these bytes may give this answer, and then be the other one.
    ghost may_take: { Self → List ℕ → Result ℕ OutFailed → Self → Type 0 };

    /// Takes the first bytes of `bytes`, and answers how many.
    fn ask(&mut self, bytes: &[u8]) -> Result<usize, OutFailed>
        ensures bound { IfOk result (λ k. k ≤ length bytes.now) }
        ensures took { IfOk result (λ k. Takes (Self.state self.old).taken (take k bytes.now) (Self.state self.new).taken) }
        ensures none { OnErr result (Keeps (Self.state self.old).taken (Self.state self.new).taken) }
        ensures failures { (Self.state self.new).failures
            ≡ refused_if (is_err result || is_empty_answer result (length bytes.now)) (Self.state self.old).failures }
        ensures answer { may_take self.old bytes.now result self.new };
}

impl<O: Out> AskedOut for O {
    ghost may_take = { λ _ _ _ _. Unit {0} };

    fn ask(&mut self, bytes: &[u8]) -> Result<usize, OutFailed> {
        self.write(bytes)
    }
}

/// A writer, of which each write is told apart.
pub(crate) trait AskedWriter: Write {
    ghost use Rattle.std.specs.Prelude.{ℕ, List, Result};
    ghost use Rattle.std.specs.Io.KnownBytes.{WriteAppends};
    ghost use Rattle.mdmp_source.specs.declared.output.OutFailed.{OutFailed};

    /// Whether a writer that is handed these bytes may give this answer, and then be the other one.
    ghost may_write: { Self → List ℕ → Result ℕ OutFailed → Self → Type 0 };

    /// Takes the first bytes of `bytes`, and answers how many.
    fn ask(&mut self, bytes: &[u8]) -> Result<usize, OutFailed>
        ensures bound { IfOk result (λ k. k ≤ length bytes.now) }
        ensures bytes { WriteAppends (Self.contents self.old) (Self.contents self.new) result bytes.now }
        ensures answer { may_write self.old bytes.now result self.new };
}

impl<W: Write> AskedWriter for W {
    ghost may_write = { λ _ _ _ _. Unit {0} };

    fn ask(&mut self, bytes: &[u8]) -> Result<usize, OutFailed> {
        self.write(bytes).map_err(|_| OutFailed)
    }
}

/// The system, of which each opening of a file and each taking of memory is told apart.
pub(crate) trait AskedSystem<F, A: Allocator> {
    ghost use Rattle.std.specs.Prelude.{ℕ, List};

    /// Whether this file may be the one at this path.
    ghost may_open: { Self → List ℕ → F → Type 0 };

    /// Whether it may refuse to open the file at this path.
    ghost may_refuse: { Self → List ℕ → Type 0 };

    /// Whether it may have no memory for so many bytes.
    ghost may_lack: { Self → ℕ → Type 0 };

    /// Opens the file at `path` for reading.
    fn ask_open(&self, path: &str) -> Result<F, StoreFailed>
        ensures file { IfOk result (may_open self.now path.now) }
        ensures err { OnErr result (may_refuse self.now path.now) };

    /// Takes memory for that many bytes, and no more.
    fn ask_room(&self, room: usize) -> Result<Vec<u8, A>, StoreFailed>
        ensures room { IfOk result (λ buffer. (vec_len buffer ≡ 0) × (vec_capacity buffer ≡ room)) }
        ensures err { OnErr result (may_lack self.now room) };
}

impl<F, A: Allocator, R: Files<File = F> + Alloc<A = A>> AskedSystem<F, A> for R {
    ghost may_open = { λ _ _ _. Unit {0} };

    ghost may_refuse = { λ _ _. Unit {0} };

    ghost may_lack = { λ _ _. Unit {0} };

    fn ask_open(&self, path: &str) -> Result<F, StoreFailed> {
        fs::open(self, path).map_err(|_| StoreFailed)
    }

    fn ask_room(&self, room: usize) -> Result<Vec<u8, A>, StoreFailed> {
        Vec::with_capacity(self.alloc(), room).map_err(|_| StoreFailed)
    }
}

/// An open file that tells its metadata, as every [`OpenFile`] does.
pub(crate) trait Described {
    ghost use Rattle.std.specs.declared.fs.attrs.Metadata.{Metadata};

    /// Whether a file may have this metadata.
    ghost may_have: { Self → Metadata → Type 0 };

    /// Whether it may refuse to tell its metadata.
    ghost may_hide: { Self → Type 0 };

    /// The file's metadata.
    fn described(&self) -> Result<Metadata, StoreFailed>
        ensures metadata { IfOk result (may_have self.now) }
        ensures err { OnErr result (may_hide self.now) };
}

impl<F: OpenFile> Described for F {
    // of a file of std any may be its
    ghost may_have = { λ _ _. Unit {0} };

    ghost may_hide = { λ _. Unit {0} };

    fn described(&self) -> Result<Metadata, StoreFailed> {
        self.metadata().map_err(|_| StoreFailed)
    }
}

/// An open file, of which each seek and each read is told apart.
pub(crate) trait AskedFile {
    ghost use Rattle.std.specs.Prelude.{ℕ, Bool, List, Result};
    ghost use Rattle.mdmp_source.specs.declared.store.StoreFailed.{StoreFailed};

    /// Whether a file that is sought to this place may be the other one then, with success or without.
    ghost may_seek: { Self → ℕ → Bool → Self → Type 0 };

    /// Whether a file that is read may give this answer, and these bytes in what it was handed, and then be the other one.
    ghost may_read: { Self → Result ℕ StoreFailed → List ℕ → Self → Type 0 };

    /// Goes to the offset `at`.
    fn ask_seek(&mut self, at: u64) -> Result<u64, StoreFailed>
        ensures { may_seek self.old at (is_ok result) self.new };

    /// Reads some bytes into the front of `out`, and answers how many.
    fn ask_read(&mut self, out: &mut [u8]) -> Result<usize, StoreFailed>
        ensures bound { IfOk result (λ k. k ≤ length out.new) }
        ensures answer { may_read self.old result out.new self.new };
}

// What std says of a seek and a read holds of them.
impl<F: Read + Seek> AskedFile for F {
    ghost use Rattle.std.specs.Io.KnownBytes.{ReadConsumes};
    ghost use Rattle.mdmp_source.specs.Files.{IsFileSought};

    ghost may_seek = { λ before at is_ok after. IsFileSought (F.stream_position before) (F.stream_position after) at is_ok };

    ghost may_read = { λ before answer out after. ReadConsumes (F.remaining before) (F.remaining after) answer out };

    fn ask_seek(&mut self, at: u64) -> Result<u64, StoreFailed> {
        self.seek(SeekFrom::Start(at)).map_err(|_| StoreFailed)
    }

    fn ask_read(&mut self, out: &mut [u8]) -> Result<usize, StoreFailed> {
        self.read(out).map_err(|_| StoreFailed)
    }
}

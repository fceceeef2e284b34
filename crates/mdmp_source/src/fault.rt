//! Why bytes of a file could not be had.

/// Why bytes of a file could not be had. `at` is an offset from the start of the file.
#[derive(Clone, Copy, Debug, PartialEq, Eq)]
pub enum SourceFault {
    /// The store failed. The byte at `at` is the first that was not obtained.
    Failed { at: u64 },
    /// The store answered no bytes. The byte at `at` is the first that was not obtained.
    ShortRead { at: u64 },
    /// Bytes that were fetched twice, at `at`, do not agree. No fetch answers it: callers do, which
    /// compare, and only of a store whose content is not known.
    Changed { at: u64 },
}

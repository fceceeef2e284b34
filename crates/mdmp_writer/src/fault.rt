//! Why a dump is not written.

use mdmp_dump::ViewFault;

/// Why a dump can't be written, in the order in which that is tested.
#[derive(Clone, Copy, Debug, PartialEq, Eq)]
pub enum LayoutFault {
    /// The stream with this number holds raw bytes, but its type is that of an unused stream or one
    /// whose records are known.
    RawKnownType { stream: u64 },
    /// The streams end past 2^32 - 1, the greatest address that the directory can name, or the file
    /// ends past 2^64 - 1.
    TooLarge,
}

/// Why a dump was not written.
#[derive(Clone, Copy, Debug, PartialEq, Eq)]
pub enum WriteFault {
    /// It can't be written: nothing went out.
    Layout(LayoutFault),
    /// The output refused; a first part of the dump went out, perhaps none of it.
    Out,
    /// The view answered a fault; a first part of the dump went out, perhaps none of it.
    View(ViewFault),
}

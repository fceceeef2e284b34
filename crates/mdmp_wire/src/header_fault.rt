//! Why the head of a file is refused.

/// Why the first 32 bytes of a file are not the head of a minidump, tested in this order.
#[derive(Clone, Copy, Debug, PartialEq, Eq)]
pub enum HeaderFault {
    /// The first four bytes are not `MDMP`: `MINIDUMP_SIGNATURE`.
    BadSignature,
    /// The low half of the version is not 0xa793: `MINIDUMP_VERSION`. The high half belongs to the
    /// producer and is not tested.
    BadVersion {
        /// The low half that stands there.
        low: u16,
    },
}

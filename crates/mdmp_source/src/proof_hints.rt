//! Hints for the prover: functions that do nothing.
ghost use Rattle.mdmp_source.specs.Store.{AreBytes};

/// Tells the prover that each byte of a slice is below 2^8. It changes nothing.
pub(crate) fn know_bytes(bytes: &[u8])
    ensures { AreBytes bytes.now }
{
    for k in 0..bytes.len() {
        let _byte = bytes[k];
    }
}

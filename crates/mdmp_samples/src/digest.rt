//! How long some bytes are, and their SHA-256.

use sha2::{Digest, Sha256};
use std::alloc::Global;

/// What is told of bytes that are too many to print: how many they are, and their SHA-256 in hexadecimal
/// digits; or none where memory is wanting.
pub fn summary_of(alloc: Global, bytes: &[u8]) -> Option<String> {
    let size = bytes.len();
    let sha256 = hex::encode(alloc, Sha256::digest(bytes)).ok()?;
    format!(in alloc; "{size} bytes, sha256 {sha256}").ok()
}

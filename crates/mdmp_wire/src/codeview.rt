//! What a module tells of its debug information.
ghost use Rattle.std.specs.Prelude.{◌≡◌, ◌≤◌, min, length, nat_lt, take, take_while, not, ◌==◌};
ghost use Rattle.std.specs.List.{list_any};

use crate::record::get_at;
use uuid::Uuid;

/// What the CodeView record of a module tells, which its `CvRecord` locates. minidumpapiset.h
/// has no structure for it: the layout of the kind RSDS is that of Microsoft's linker.
#[derive(Clone, Copy)]
pub enum CodeView<'a> {
    /// A record of the kind RSDS, which names the symbol file.
    Rsds {
        /// The symbol file's identity.
        guid: Uuid,
        /// How often the symbol file was written since it got its identity.
        age: u32,
        /// Its name, up to the first zero byte: bytes of no known encoding.
        name: &'a [u8],
        /// Whether a zero byte ended the name. Where it did not, more of it may follow.
        ended: bool,
    },
    /// A record of another kind.
    Other {
        /// The first four bytes, in the order of the file.
        signature: [u8; 4],
        /// How many bytes the whole record has.
        size: u32,
    },
    /// A record too short for a signature, or for what RSDS says before the name.
    Short {
        /// How many bytes the whole record has.
        size: u32,
    },
}

impl<'a> CodeView<'a> {
    ghost use Rattle.mdmp_wire.specs.CodeView.{codeview_value, codeview_in};

    /// The four bytes `RSDS` as a number.
    pub const RSDS: u32 = 0x5344_5352;

    /// What a record of `size` bytes tells, of which `head` is the first 24 bytes, or all where it
    /// has fewer, and `rest` is what was read of the bytes behind them. The name is lent from
    /// `rest`.
    #[tactic(auto, unfolding(crate::specs::Number::array_at))]
    pub fn read(head: &[u8], rest: &'a [u8], size: u32) -> CodeView<'a>
        requires { length head.now ≡ min size 24 }
        ensures { codeview_value result ≡ codeview_in head.now rest.now size }
    {
        if size < 4 {
            return CodeView::Short { size };
        }
        let kind: u32 = get_at(head, 0);
        if kind != CodeView::RSDS {
            let mut signature = [0; 4];
            signature.copy_from_slice(&head[..4]);
            return CodeView::Other { signature, size };
        }
        if size < 24 {
            return CodeView::Short { size };
        }
        let mut guid = [0; 16];
        guid.copy_from_slice(&head[4..20]);
        let end = name_end(rest);
        CodeView::Rsds {
            guid: Uuid::from_bytes_le(guid),
            age: get_at(head, 20),
            name: &rest[..end],
            ended: end < rest.len(),
        }
    }
}

/// Where the first zero byte stands, or the end of the bytes where there is none.
fn name_end(bytes: &[u8]) -> usize
    ensures bound { result ≤ length bytes.now }
    ensures name { take result bytes.now ≡ take_while (λ b. not (b == 0)) bytes.now }
    ensures ended { nat_lt result (length bytes.now) ≡ list_any (λ b. b == 0) bytes.now }
{
    let mut end = 0;
    while end < bytes.len() && bytes[end] != 0 {
        end += 1;
    }
    end
}

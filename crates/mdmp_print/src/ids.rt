//! The ids by which symbol servers know a module, and the name of a stream's type, as pieces of objects.
ghost use Rattle.std.specs.Prelude.{◌++◌, ◌∷◌, codes, refl, true};
ghost use Rattle.json.specs.Token.{key};
ghost use Rattle.mdmp_names.specs.StreamTypes.{stream_name};
ghost use Rattle.mdmp_print.specs.Escapes.{escape-stamp_id};
ghost use Rattle.mdmp_print.specs.IdLaws.{ArePrinted-code_id, ArePrinted-stream_name};
ghost use Rattle.mdmp_print.specs.Ids.{pe_id_of, stamp_id};
ghost use Rattle.mdmp_print.specs.Json.{text_or_null};
ghost use Rattle.mdmp_print.specs.JsonPieces.{text_or_null_text};

use crate::hex::{UpperHex8, short_hex_at};
use crate::in_buffer::slice_at;
use crate::piece::Piece;
use crate::values::{Members, PlainPiece};
use mdmp_names::stream_name;
use mdmp_summary::CodeId;

/// A time in eight digits of upper case, and a number behind it in lower case, as `%08X%x` prints them: the code id of
/// a PE file, and the debug id of a symbol file of PDB 2.0.
#[derive(Clone, Copy)]
pub struct StampId(pub u32, pub u32);

impl Piece for StampId {
    ghost text = { λ p. stamp_id p.0 p.1 };

    ghost before = { λ p more. stamp_id p.0 p.1 ++ more };

    ghost most = { 16 };

    ghost joined = { λ p more. refl };

    fn write_at(&self, buffer: &mut [u8], at: usize) -> usize {
        let at = UpperHex8(self.0).write_at(buffer, at);
        short_hex_at::<8>(buffer, at, false, u64::from(self.1))
    }
}

impl PlainPiece for StampId {
    ghost is_plain = { λ p. true };

    ghost same = { λ p plain. escape-stamp_id p.0 p.1 };
}

/// The code id of a module as a member of its object, null if the module has none.
#[derive(Clone, Copy)]
pub struct CodeIdMember(pub Option<CodeId>);

impl Piece for CodeIdMember {
    ghost text = { λ p. codes ",\"code_id\":" ++ text_or_null_text (pe_id_of p.0) };

    ghost before = { λ p more. (codes ",\"code_id\":" ++ text_or_null_text (pe_id_of p.0)) ++ more };

    ghost most = { 40 };

    ghost joined = { λ p more. refl };

    fn write_at(&self, buffer: &mut [u8], at: usize) -> usize {
        match self.0 {
            Some(id) => {
                let text = StampId(id.time_date_stamp, id.size_of_image);
                (b",\"code_id\":\"", (text, b"\"")).write_at(buffer, at)
            }
            None => b",\"code_id\":null".write_at(buffer, at),
        }
    }
}

impl Members for CodeIdMember {
    ghost onto = { λ p more. (key (codes "code_id") ∷ text_or_null (pe_id_of p.0)) ++ more };

    ghost is_plain = { λ p. true };

    ghost shown = { λ p plain. ArePrinted-code_id p.0 };
}

/// The name of a type of streams as a member of an object, null if the type has none.
#[derive(Clone, Copy)]
pub struct TypeNameMember(pub u32);

impl Piece for TypeNameMember {
    ghost text = { λ p. codes ",\"name\":" ++ text_or_null_text (stream_name p.0) };

    ghost before = { λ p more. (codes ",\"name\":" ++ text_or_null_text (stream_name p.0)) ++ more };

    ghost most = { 80 };

    ghost joined = { λ p more. refl };

    fn write_at(&self, buffer: &mut [u8], at: usize) -> usize {
        match stream_name(self.0) {
            Some(name) => {
                let at = b",\"name\":\"".write_at(buffer, at);
                let at = slice_at(buffer, at, name.as_bytes());
                b"\"".write_at(buffer, at)
            }
            None => b",\"name\":null".write_at(buffer, at),
        }
    }
}

impl Members for TypeNameMember {
    ghost onto = { λ p more. (key (codes "name") ∷ text_or_null (stream_name p.0)) ++ more };

    ghost is_plain = { λ p. true };

    ghost shown = { λ p plain. ArePrinted-stream_name p.0 };
}

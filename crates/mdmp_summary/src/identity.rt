//! The ids by which a symbol server knows a module.
ghost use Rattle.std.specs.Prelude.{◌≡◌, length, min};
ghost use Rattle.std.specs.Option.{option_map};
ghost use Rattle.mdmp_wire.specs.CodeView.{codeview_value};

use mdmp_wire::{CodeView, ModuleRecord, get_at};
use uuid::Uuid;

/// The code id of a PE file, printed as `%08X%x`: the key of the file at a symbol server.
#[derive(Clone, Copy, Debug, PartialEq, Eq)]
pub struct CodeId {
    /// `TimeDateStamp`, which is not 0.
    pub time_date_stamp: u32,
    /// `SizeOfImage`.
    pub size_of_image: u32,
}

impl CodeId {
    ghost use Rattle.mdmp_summary.specs.Identity.{code_id_of};

    /// The code id of a module. There is none if its time is 0, as in dumps of systems without PE files.
    pub fn of_module(fields: &ModuleRecord) -> Option<Self>
        ensures { result ≡ code_id_of fields.now }
    {
        if fields.time_date_stamp == 0 {
            return None;
        }
        Some(CodeId {
            time_date_stamp: fields.time_date_stamp,
            size_of_image: fields.size_of_image,
        })
    }
}

/// The build id of an ELF file, as far as the first 24 bytes of a CodeView record have it: at most 20 bytes.
/// Breakpad's code id is its bytes as digits in lower case.
#[derive(Clone, Copy)]
pub struct BuildId<'a> {
    /// The bytes of the id, in the order of the file.
    pub bytes: &'a [u8],
    /// Whether the record has more bytes of the id.
    pub cut: bool,
}

impl<'a> BuildId<'a> {
    ghost use Rattle.mdmp_summary.specs.Identity.{build_id_in, build_id_value};

    /// The four bytes `4c 45 70 42` as a number: `MD_CVINFOELF_SIGNATURE` of Breakpad.
    pub const ELF: u32 = 0x4270_454c;

    /// The build id in a CodeView record of `size` bytes. `head` is the first 24 bytes of the record, or all of
    /// them if it has fewer. There is no build id if the record has another signature.
    pub fn read(head: &'a [u8], size: u32) -> Option<BuildId<'a>>
        requires { length head.now ≡ min size 24 }
        ensures { option_map build_id_value result ≡ build_id_in head.now size }
    {
        if size < 4 {
            return None;
        }
        let kind: u32 = get_at(head, 0);
        if kind != BuildId::ELF {
            return None;
        }
        Some(BuildId {
            bytes: &head[4..],
            cut: size > 24,
        })
    }
}

/// The identity of a symbol file of PDB 2.0, from a CodeView record of the kind NB10. It is printed as `%08X%x`.
#[derive(Clone, Copy, Debug, PartialEq, Eq)]
pub struct Pdb20 {
    /// When the symbol file was made, in seconds since 1970.
    pub time: u32,
    /// How often it was written since.
    pub age: u32,
}

impl Pdb20 {
    ghost use Rattle.mdmp_summary.specs.Identity.{pdb20_in};

    /// The four bytes `NB10` as a number.
    pub const NB10: u32 = 0x3031_424e;

    /// The identity in a CodeView record of `size` bytes. `head` is the first 24 bytes of the record, or all of
    /// them if it has fewer. There is none if the record has another signature or is too short.
    pub fn read(head: &[u8], size: u32) -> Option<Self>
        requires { length head.now ≡ min size 24 }
        ensures { result ≡ pdb20_in head.now size }
    {
        if size < 16 {
            return None;
        }
        let kind: u32 = get_at(head, 0);
        if kind != Pdb20::NB10 {
            return None;
        }
        Some(Pdb20 {
            time: get_at(head, 8),
            age: get_at(head, 12),
        })
    }
}

/// The debug id of a module, as Breakpad writes it: the digits of the GUID, and the age in hexadecimal.
#[derive(Clone, Copy, Debug, PartialEq, Eq)]
pub struct DebugIdentifier {
    /// The identity of the symbol file.
    pub guid: Uuid,
    /// How often the symbol file was written since it got its identity.
    pub age: u32,
}

impl DebugIdentifier {
    ghost use Rattle.mdmp_summary.specs.Identity.{debug_id_built, debug_id_told};

    /// The debug id in a CodeView record of the kind RSDS. There is none in a record of another kind.
    pub fn of_codeview(codeview: &CodeView<'_>) -> Option<Self>
        ensures { result ≡ debug_id_told (codeview_value codeview.now) }
    {
        match codeview {
            CodeView::Rsds { guid, age, .. } => Some(DebugIdentifier {
                guid: *guid,
                age: *age,
            }),
            CodeView::Other { .. } | CodeView::Short { .. } => None,
        }
    }

    /// The debug id that Breakpad makes of a build id: its first 16 bytes as a GUID, and the age 0. If the
    /// build id has fewer bytes, zeros follow them.
    pub fn of_build_id(bytes: &[u8]) -> Self
        ensures { result ≡ debug_id_built bytes.now }
    {
        let mut guid = [0; 16];
        let len = bytes.len().min(16);
        guid[..len].copy_from_slice(&bytes[..len]);
        DebugIdentifier {
            guid: Uuid::from_bytes_le(guid),
            age: 0,
        }
    }
}

//! The ids by which symbol servers know a module.
ghost use Rattle.std.specs.Prelude.{◌≡◌, length, min};
ghost use Rattle.mdmp_c.specs.Ids.{codeview_ids, front_of, ids_inside, ids_of_build_id, ids_of_other, module_ids, place_ids};
ghost use Rattle.mdmp_c.specs.Symbols.{IsPlaceInside};
ghost use Rattle.mdmp_summary.specs.Identity.{build_id_value};

use crate::parts::PartPlace;
use crate::rows::ModuleRow;
use mdmp_source::inside;
use mdmp_summary::{BuildId, DebugIdentifier, Pdb20};
use mdmp_wire::CodeView;
use std::mem::size_of;

/// The ids of a module. A number that the kind of its CodeView record does not have is 0.
#[repr(C)]
#[derive(Clone, Copy)]
pub struct ModuleIds {
    /// 0 if there is no CodeView record inside the file or it is too short, 1 for RSDS, 2 for NB10, 3 for a build id, 4 for another kind.
    pub kind: u32,
    /// Of RSDS and NB10: how often the symbol file was written since it got its identity.
    pub age: u32,
    /// Of RSDS the identity of the symbol file; of a build id what Breakpad makes of it. In the order in which it is printed.
    pub guid: [u8; 16],
    /// Of NB10: when the symbol file was made, in seconds since 1970.
    pub signature: u32,
    /// How many bytes of `build_id` there are.
    pub build_id_size: u32,
    /// 1 if the record has more bytes of the build id.
    pub build_id_cut: u32,
    /// Of a PE file: `TimeDateStamp`.
    pub time_date_stamp: u32,
    /// Of a PE file: `SizeOfImage`; 0 if the time is 0.
    pub size_of_image: u32,
    /// The build id of an ELF file, in the order of the file.
    pub build_id: [u8; 20],
}

const _: () = prove!(size_of::<ModuleIds>() == 64);

const NO_IDS: ModuleIds = ModuleIds {
    kind: 0,
    age: 0,
    guid: [0; 16],
    signature: 0,
    build_id_size: 0,
    build_id_cut: 0,
    time_date_stamp: 0,
    size_of_image: 0,
    build_id: [0; 20],
};

/// Gives the ids of a module. It uses the place of the module's CodeView record, its time and its size.
#[unsafe(no_mangle)]
pub extern "C" fn mdmp_ids_(file: &[u8], row: &ModuleRow, out: &mut ModuleIds) -> u32
    ensures status { result ≡ 0 }
    ensures ids { out.new ≡ module_ids file.now row.now }
{
    let ids = place_ids(file, &row.codeview);
    *out = ModuleIds {
        time_date_stamp: row.time_date_stamp,
        size_of_image: if row.time_date_stamp == 0 {
            0
        } else {
            row.size_of_image
        },
        ..ids
    };
    0
}

/// The ids in the CodeView record at a place. There are none if no byte of it stands there, or if it does not lie inside
/// the file.
fn place_ids(file: &[u8], place: &PartPlace) -> ModuleIds
    ensures { result ≡ place_ids file.now place.now }
{
    let at = u64::from(place.rva);
    let size = u64::from(place.size);
    if place.size == 0 || !inside(at, size, file.len() as u64) {
        return NO_IDS;
    }
    ids_inside(file, place)
}

/// The ids in the CodeView record at a place inside the file.
fn ids_inside(file: &[u8], place: &PartPlace) -> ModuleIds
    requires { IsPlaceInside file.now place.now }
    ensures { result ≡ ids_inside file.now place.now }
{
    let start = place.rva as usize;
    let middle = start + (place.size as usize).min(24);
    codeview_ids(&file[start..middle], place.size)
}

/// The ids in a CodeView record of `size` bytes, of which `head` is the first 24, or all if it has fewer.
fn codeview_ids(head: &[u8], size: u32) -> ModuleIds
    requires { length head.now ≡ min size 24 }
    ensures { result ≡ codeview_ids head.now size }
{
    match CodeView::read(head, &[], size) {
        CodeView::Rsds { guid, age, .. } => ModuleIds {
            kind: 1,
            age,
            guid: guid.into_bytes(),
            ..NO_IDS
        },
        CodeView::Other { .. } => ids_of_other(head, size),
        CodeView::Short { .. } => NO_IDS,
    }
}

/// The ids in a CodeView record that is not of the kind RSDS.
fn ids_of_other(head: &[u8], size: u32) -> ModuleIds
    requires { length head.now ≡ min size 24 }
    ensures { result ≡ ids_of_other head.now size }
{
    if let Some(id) = BuildId::read(head, size) {
        return ids_of_build_id(&id);
    }
    match Pdb20::read(head, size) {
        Some(pdb) => ModuleIds {
            kind: 2,
            age: pdb.age,
            signature: pdb.time,
            ..NO_IDS
        },
        None => ModuleIds { kind: 4, ..NO_IDS },
    }
}

/// The ids of a build id, of which at most 20 bytes are given.
fn ids_of_build_id(id: &BuildId<'_>) -> ModuleIds
    ensures { result ≡ ids_of_build_id (build_id_value id.now) }
{
    ModuleIds {
        kind: 3,
        guid: DebugIdentifier::of_build_id(id.bytes).guid.into_bytes(),
        build_id_size: id.bytes.len().min(20) as u32,
        build_id_cut: if id.cut { 1 } else { 0 },
        build_id: front_of(id.bytes),
        ..NO_IDS
    }
}

/// The first 20 bytes, and zeros after them if there are fewer.
fn front_of(bytes: &[u8]) -> [u8; 20]
    ensures { result ≡ front_of bytes.now }
{
    let mut front = [0; 20];
    let len = bytes.len().min(20);
    front[..len].copy_from_slice(&bytes[..len]);
    front
}

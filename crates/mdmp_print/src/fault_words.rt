//! What is said of the faults of a source, an opening and a listing, as pieces of lines.
ghost use Rattle.std.specs.Prelude.{◌++◌, [], codes, refl, true};
ghost use Rattle.mdmp_print.specs.FaultLaws.{ArePrinted-item, escape-kind};
ghost use Rattle.mdmp_print.specs.FaultWords.{budget_text, item_text, kind_words, list_fault_text, opening_text, source_text};
ghost use Rattle.mdmp_print.specs.JsonLines.{record_member};
ghost use Rattle.mdmp_print.specs.JsonPieces.{record_member_text};

use crate::hex::Hex4;
use crate::piece::Piece;
use crate::row;
use crate::values::{Members, PlainPiece};
use mdmp_lister::{FaultKind, ListFault, OpenFault};
use mdmp_source::SourceFault;

/// What is said of a fault of a source.
#[derive(Clone, Copy)]
pub struct SourceWords(pub SourceFault);

impl Piece for SourceWords {
    ghost text = { λ p. source_text p.0 };

    ghost before = { λ p more. source_text p.0 ++ more };

    ghost most = { 50 };

    ghost joined = { λ p more. refl };

    fn write_at(&self, buffer: &mut [u8], at: usize) -> usize {
        match self.0 {
            SourceFault::Failed { at: place } => row![b"store failed at ", place].write_at(
                buffer, at,
            ),
            SourceFault::ShortRead { at: place } => row![b"store ended at ", place].write_at(
                buffer, at,
            ),
            SourceFault::Changed { at: place } => row![b"store changed at ", place].write_at(
                buffer, at,
            ),
        }
    }
}

/// What is said if the bytes at an offset would pass the read limit.
#[derive(Clone, Copy)]
pub struct BudgetWords {
    /// The offset from the start of the file.
    pub offset: u64,
    /// How many bytes there are.
    pub size: u64,
}

impl Piece for BudgetWords {
    ghost text = { λ p. budget_text p.offset p.size };

    ghost before = { λ p more. budget_text p.offset p.size ++ more };

    ghost most = { 90 };

    ghost joined = { λ p more. refl };

    fn write_at(&self, buffer: &mut [u8], at: usize) -> usize {
        row![
            b"fetch budget reached: offset ",
            self.offset,
            b" size ",
            self.size
        ]
        .write_at(buffer, at)
    }
}

/// Why a file can't be opened.
#[derive(Clone, Copy)]
pub struct OpenWords(pub OpenFault);

impl Piece for OpenWords {
    ghost text = { λ p. opening_text p.0 };

    ghost before = { λ p more. opening_text p.0 ++ more };

    ghost most = { 100 };

    ghost joined = { λ p more. refl };

    fn write_at(&self, buffer: &mut [u8], at: usize) -> usize {
        match self.0 {
            OpenFault::TooShort { size } => row![
                b"file of ",
                size,
                b" bytes is too short"
            ].write_at(buffer, at),
            OpenFault::BadSignature => b"bad signature".write_at(buffer, at),
            OpenFault::BadVersion { low } => row![b"bad version 0x", Hex4(low)].write_at(
                buffer, at,
            ),
            OpenFault::DirectoryOutside { offset, size } => {
                row![
                    b"directory outside the file: offset ",
                    offset,
                    b" size ",
                    size
                ]
                .write_at(buffer, at)
            }
            OpenFault::Source(fault) => SourceWords(fault).write_at(buffer, at),
            OpenFault::Budget { offset, size } => BudgetWords { offset, size }.write_at(buffer, at),
            OpenFault::Memory => b"out of memory".write_at(buffer, at),
            OpenFault::MemoryLimit { held } => row![b"memory limit reached: ", held].write_at(
                buffer, at,
            ),
            OpenFault::TooManyRanges { count } => row![b"too many memory ranges: ", count].write_at(
                buffer, at,
            ),
        }
    }
}

/// What is said of the fault of an entry or a record.
#[derive(Clone, Copy)]
pub struct ListWords(pub ListFault);

impl Piece for ListWords {
    ghost text = { λ p. list_fault_text p.0 };

    ghost before = { λ p more. list_fault_text p.0 ++ more };

    ghost most = { 160 };

    ghost joined = { λ p more. refl };

    fn write_at(&self, buffer: &mut [u8], at: usize) -> usize {
        row![
            b"entry ",
            self.0.entry,
            ItemWords(self.0.index),
            b": ",
            KindWords(self.0.kind),
            b": offset ",
            self.0.offset,
            b" size ",
            self.0.size,
        ]
        .write_at(buffer, at)
    }
}

/// What a kind of fault is called.
#[derive(Clone, Copy)]
pub struct KindWords(pub FaultKind);

impl Piece for KindWords {
    ghost text = { λ p. kind_words p.0 };

    ghost before = { λ p more. kind_words p.0 ++ more };

    ghost most = { 32 };

    ghost joined = { λ p more. refl };

    fn write_at(&self, buffer: &mut [u8], at: usize) -> usize {
        match self.0 {
            FaultKind::StreamOutside => b"stream outside the file".write_at(buffer, at),
            FaultKind::ShortStream => b"stream too short".write_at(buffer, at),
            FaultKind::BadHeaderSize => b"bad header size".write_at(buffer, at),
            FaultKind::BadEntrySize => b"bad entry size".write_at(buffer, at),
            FaultKind::BadCount => b"bad count".write_at(buffer, at),
            FaultKind::NameLengthOutside => b"name length outside the file".write_at(buffer, at),
            FaultKind::NameOdd => b"odd name length".write_at(buffer, at),
            FaultKind::NameUnitsOutside => b"name outside the file".write_at(buffer, at),
            FaultKind::Source(_) => at,
            FaultKind::Budget => at,
        }
    }
}

impl PlainPiece for KindWords {
    ghost is_plain = { λ p. true };

    ghost same = { λ p plain. escape-kind p.0 };
}

/// Which record has a fault, if one has.
#[derive(Clone, Copy)]
pub struct ItemWords(pub Option<u64>);

impl Piece for ItemWords {
    ghost text = { λ p. item_text p.0 };

    ghost before = { λ p more. item_text p.0 ++ more };

    ghost most = { 26 };

    ghost joined = { λ p more. refl };

    fn write_at(&self, buffer: &mut [u8], at: usize) -> usize {
        match self.0 {
            None => at,
            Some(index) => (b" item ", index).write_at(buffer, at),
        }
    }
}

/// Which record has a fault, if one has, as a member of an object, behind a comma.
#[derive(Clone, Copy)]
pub struct ItemMember(pub Option<u64>);

impl Piece for ItemMember {
    ghost text = { λ p. record_member_text p.0 };

    ghost before = { λ p more. record_member_text p.0 ++ more };

    ghost most = { 40 };

    ghost joined = { λ p more. refl };

    fn write_at(&self, buffer: &mut [u8], at: usize) -> usize {
        match self.0 {
            None => at,
            Some(index) => row![b",\"item\":", b"\"", index, b"\""].write_at(buffer, at),
        }
    }
}

impl Members for ItemMember {
    ghost onto = { λ p more. record_member p.0 ++ more };

    ghost is_plain = { λ p. true };

    ghost shown = { λ p plain. ArePrinted-item p.0 };
}

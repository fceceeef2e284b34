//! Parts of records that are not in the file.
ghost use Rattle.std.specs.Prelude.{◌≡◌, None};

use crate::keeping::{count, keep};
use crate::lost_parts::LostParts;
use mdmp_source::Location;
use mdmp_wire::PartName;

/// A part that lies outside the file: at least one of its bytes is after the end of the file.
#[derive(Clone, Copy, Debug, PartialEq, Eq)]
pub struct PartOutside {
    /// The number of its record's entry in the directory, from 0.
    pub entry: u32,
    /// The index of the record in its stream, from 0.
    pub index: u64,
    /// Which part of the record it is.
    pub part: PartName,
    /// Where its first byte should be, an offset from the start of the file.
    pub offset: u128,
    /// How many bytes it has.
    pub size: u64,
}

impl PartOutside {
    ghost use Rattle.mdmp_summary.specs.Part.{located};

    /// The part at a location.
    pub(crate) fn located(entry: u32, index: u64, part: PartName, at: Location) -> Self
        ensures { result ≡ located entry index part at }
    {
        PartOutside {
            entry,
            index,
            part,
            offset: u128::from(at.rva),
            size: u64::from(at.size),
        }
    }
}

/// How many parts lie outside the file, and the first of them in the order of the listing.
#[derive(Clone, Copy, Debug, PartialEq, Eq)]
pub struct PartsOutside {
    /// How many.
    pub count: u128,
    /// The first.
    pub first: Option<PartOutside>,
}

impl PartsOutside {
    ghost use Rattle.mdmp_summary.specs.Part.{part_told, parts_seen, parts_told};

    /// Before the first part.
    pub(crate) fn none() -> Self
        ensures { result ≡ record { count = 0; first = None } }
    {
        PartsOutside {
            count: 0,
            first: None,
        }
    }

    fn look(&mut self, part: Option<PartOutside>)
        ensures { self.new ≡ parts_seen self.old (part_told part) }
    {
        match part {
            Some(part) => {
                count(&mut self.count, 1);
                keep(&mut self.first, part);
            }
            None => {}
        }
    }

    /// Takes the parts of the next record.
    #[tactic(auto, using(crate::proofs::Folds::parts_seen_append))]
    pub(crate) fn take(&mut self, parts: LostParts)
        ensures { self.new ≡ parts_seen self.old (parts_told parts) }
    {
        self.look(parts.first);
        self.look(parts.second);
    }
}

//! The fields of structures: numbers of 1, 2, 4 and 8 bytes, the lowest byte first, fifteen numbers
//! of 8 bytes, and twenty-four bytes that are kept as they are.
ghost use Rattle.mdmp_wire.specs.Number.{le, u8_at, u16_at, u32_at, u64_at};
ghost use Rattle.mdmp_wire.specs.NumberLaws.{u8_at-part, u16_at-part, u32_at-part, u64_at-part};

use crate::record::Record;
use byteorder::{ByteOrder, LittleEndian};

impl Record for u8 {
    ghost SIZE = { 1 };

    const SIZE: usize = 1;

    ghost at = { u8_at };

    ghost bytes_of = { le 1 };

    ghost part = { u8_at-part };

    #[tactic(auto, unfolding(crate::specs::Number::number_at))]
    fn read(bytes: &[u8]) -> Self {
        bytes[0]
    }

    #[tactic(auto, unfolding(crate::specs::Number::number_at, crate::specs::Number::le))]
    fn write(&self, out: &mut [u8]) {
        out[0] = *self;
    }
}

impl Record for u16 {
    ghost SIZE = { 2 };

    const SIZE: usize = 2;

    ghost at = { u16_at };

    ghost bytes_of = { le 2 };

    ghost part = { u16_at-part };

    #[tactic(auto, unfolding(crate::specs::Number::number_at))]
    fn read(bytes: &[u8]) -> Self {
        LittleEndian::read_u16(bytes)
    }

    fn write(&self, out: &mut [u8]) {
        LittleEndian::write_u16(out, *self);
    }
}

impl Record for u32 {
    ghost SIZE = { 4 };

    const SIZE: usize = 4;

    ghost at = { u32_at };

    ghost bytes_of = { le 4 };

    ghost part = { u32_at-part };

    #[tactic(auto, unfolding(crate::specs::Number::number_at))]
    fn read(bytes: &[u8]) -> Self {
        LittleEndian::read_u32(bytes)
    }

    fn write(&self, out: &mut [u8]) {
        LittleEndian::write_u32(out, *self);
    }
}

impl Record for u64 {
    ghost SIZE = { 8 };

    const SIZE: usize = 8;

    ghost at = { u64_at };

    ghost bytes_of = { le 8 };

    ghost part = { u64_at-part };

    #[tactic(auto, unfolding(crate::specs::Number::number_at))]
    fn read(bytes: &[u8]) -> Self {
        LittleEndian::read_u64(bytes)
    }

    fn write(&self, out: &mut [u8]) {
        LittleEndian::write_u64(out, *self);
    }
}

impl Record for [u64; 15] {
    ghost use Rattle.mdmp_wire.specs.Number.{les, u64s_at};
    ghost use Rattle.mdmp_wire.specs.NumberLaws.{u64s_at-part};

    ghost SIZE = { 120 };

    const SIZE: usize = 120;

    ghost at = { u64s_at };

    ghost bytes_of = { les 8 };

    ghost part = { u64s_at-part };

    fn read(bytes: &[u8]) -> Self {
        let mut numbers = [0; 15];
        LittleEndian::read_u64_into(bytes, &mut numbers);
        numbers
    }

    fn write(&self, out: &mut [u8]) {
        LittleEndian::write_u64_into(self, out);
    }
}

impl Record for [u8; 24] {
    ghost use Rattle.mdmp_wire.specs.Number.{cpu_at};
    ghost use Rattle.mdmp_wire.specs.NumberLaws.{cpu_at-part};

    ghost SIZE = { 24 };

    const SIZE: usize = 24;

    ghost at = { cpu_at };

    ghost bytes_of = { λ xs. xs };

    ghost part = { cpu_at-part };

    #[tactic(auto, unfolding(crate::specs::Number::array_at))]
    fn read(bytes: &[u8]) -> Self {
        let mut copy = [0; 24];
        copy.copy_from_slice(bytes);
        copy
    }

    #[tactic(auto, unfolding(crate::specs::Number::array_at))]
    fn write(&self, out: &mut [u8]) {
        out.copy_from_slice(self);
    }
}

//! The registers of a CPU context that tell where a thread was.
ghost use Rattle.std.specs.Prelude.{◌≡◌, ◌≤◌, ◌+◌, length, take};
ghost use Rattle.mdmp_wire.specs.Number.{number_at};
ghost use Rattle.mdmp_summary.specs.Context.{registers_at};

use mdmp_wire::get_at;

/// Where a thread was, as its CPU context tells.
#[derive(Clone, Copy, Debug, PartialEq, Eq)]
pub struct Registers {
    /// The instruction pointer: `Eip`, `Rip`, `Pc`.
    pub instruction: u64,
    /// The stack pointer: `Esp`, `Rsp`, `Sp`.
    pub stack: u64,
    /// The frame pointer: `Ebp`, `Rbp`, `Fp` of ARM64. On ARM it is the register `r11`.
    pub frame: u64,
}

/// The width of a register, in bytes.
#[derive(Clone, Copy)]
pub(crate) enum RegisterWidth {
    Four,
    Eight,
}

/// The offsets of the three registers in a context, in bytes from its start, and their width.
#[derive(Clone, Copy)]
pub(crate) struct RegisterTable {
    width: RegisterWidth,
    instruction: u16,
    stack: u16,
    frame: u16,
}

/// `CONTEXT` of x86 in winnt.h, `MDRawContextX86` of Breakpad.
const X86: RegisterTable = RegisterTable {
    width: RegisterWidth::Four,
    instruction: 184,
    stack: 196,
    frame: 180,
};

/// `CONTEXT` of x64 in winnt.h, `MDRawContextAMD64` of Breakpad. LLDB writes its first 720 bytes,
/// Crashpad all 1,232.
const X64: RegisterTable = RegisterTable {
    width: RegisterWidth::Eight,
    instruction: 248,
    stack: 152,
    frame: 160,
};

/// `CONTEXT` of ARM in winnt.h, `MDRawContextARM` of Breakpad.
const ARM: RegisterTable = RegisterTable {
    width: RegisterWidth::Four,
    instruction: 64,
    stack: 56,
    frame: 48,
};

/// `ARM64_NT_CONTEXT` of winnt.h, `MDRawContextARM64` of Breakpad. Breakpad's `MDRawContextARM64_Old` begins
/// with 64 bits of flags, and has these three registers at the same offsets.
const ARM64: RegisterTable = RegisterTable {
    width: RegisterWidth::Eight,
    instruction: 264,
    stack: 256,
    frame: 240,
};

impl RegisterTable {
    ghost use Rattle.mdmp_summary.specs.Context.{registers_by, registers_end, table_of, width_of};

    /// The table of a `ProcessorArchitecture`.
    fn of_architecture(architecture: u16) -> Option<Self>
        ensures { result ≡ table_of architecture }
    {
        match architecture {
            // PROCESSOR_ARCHITECTURE_INTEL, PROCESSOR_ARCHITECTURE_IA32_ON_WIN64
            0 | 10 => Some(X86),
            // PROCESSOR_ARCHITECTURE_ARM
            5 => Some(ARM),
            // PROCESSOR_ARCHITECTURE_AMD64
            9 => Some(X64),
            // PROCESSOR_ARCHITECTURE_ARM64, MD_CPU_ARCHITECTURE_ARM64_OLD
            12 | 0x8003 => Some(ARM64),
            _ => None,
        }
    }

    /// The width of a register, in bytes.
    fn bytes(self) -> usize
        ensures { result ≡ width_of self.width }
    {
        match self.width {
            RegisterWidth::Four => 4,
            RegisterWidth::Eight => 8,
        }
    }

    /// The end of the last of the three registers.
    fn end(self) -> usize
        ensures { result ≡ registers_end self }
    {
        let last = self.instruction.max(self.stack.max(self.frame));
        usize::from(last) + self.bytes()
    }

    /// The register at an offset.
    fn register(self, bytes: &[u8], at: u16) -> u64
        requires { at + width_of self.width ≤ length bytes.now }
        ensures { result ≡ number_at bytes.now at (width_of self.width) }
    {
        match self.width {
            RegisterWidth::Four => {
                let register: u32 = get_at(bytes, usize::from(at));
                u64::from(register)
            }
            RegisterWidth::Eight => get_at(bytes, usize::from(at)),
        }
    }

    /// The three registers of a context that has all of them.
    fn read(self, bytes: &[u8]) -> Registers
        requires { registers_end self ≤ length bytes.now }
        ensures { result ≡ registers_by bytes.now self }
    {
        Registers {
            instruction: self.register(bytes, self.instruction),
            stack: self.register(bytes, self.stack),
            frame: self.register(bytes, self.frame),
        }
    }
}

/// The three registers in the bytes of a context, by the system's `ProcessorArchitecture`. There are none if
/// the architecture is not known, or if the bytes end before the last of the three registers does.
pub fn registers_in(architecture: u16, bytes: &[u8]) -> Option<Registers>
    ensures { result ≡ registers_at architecture bytes.now }
{
    let table = RegisterTable::of_architecture(architecture)?;
    if bytes.len() < table.end() {
        return None;
    }
    Some(table.read(bytes))
}

/// The first 272 bytes of a context give the same registers as all its bytes.
pub fn first_bytes_suffice(architecture: u16, bytes: &[u8])
    ensures { registers_at architecture (take 272 bytes.now) ≡ registers_at architecture bytes.now }
{}

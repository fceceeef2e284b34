//! The address that a crashing thread tried to reach, and how.
ghost use Rattle.std.specs.Prelude.{◌≡◌};
ghost use Rattle.mdmp_summary.specs.Reach.{access_of, has_address, is_access_fault, reached_on, reached_plainly};

use crate::crash::Platform;
use mdmp_wire::ExceptionRecord;

/// What a thread tried to do at an address.
#[derive(Clone, Copy, Debug, PartialEq, Eq)]
pub enum AccessKind {
    /// To read.
    Read,
    /// To write.
    Write,
    /// To execute.
    Execute,
    /// The record does not tell.
    Unknown,
}

/// The address that a thread tried to reach when it crashed.
#[derive(Clone, Copy, Debug, PartialEq, Eq)]
pub struct Reached {
    /// An address of the dumped process.
    pub address: u64,
    /// What the thread tried to do there.
    pub access: AccessKind,
}

/// Whether the parameters of a Windows exception tell the address and the access: those of
/// EXCEPTION_ACCESS_VIOLATION and EXCEPTION_IN_PAGE_ERROR do.
fn is_access_fault(code: u32) -> bool
    ensures { result ≡ is_access_fault code }
{
    matches!(code, 0xC000_0005 | 0xC000_0006)
}

/// Whether a signal of Linux has an address, `si_addr`: SIGILL, SIGTRAP, SIGBUS, SIGFPE and SIGSEGV do.
fn has_address(code: u32) -> bool
    ensures { result ≡ has_address code }
{
    matches!(code, 4 | 5 | 7 | 8 | 11)
}

impl AccessKind {
    /// The access that the first parameter of an access violation means.
    fn of_parameter(parameter: u64) -> Self
        ensures { result ≡ access_of parameter }
    {
        match parameter {
            0 => AccessKind::Read,
            1 => AccessKind::Write,
            8 => AccessKind::Execute,
            _ => AccessKind::Unknown,
        }
    }
}

/// `ExceptionAddress` by an unknown access, if the code says that it was reached.
fn reached_plainly(says: bool, fields: &ExceptionRecord) -> Option<Reached>
    ensures { result ≡ reached_plainly says fields.now }
{
    if says {
        Some(Reached {
            address: fields.exception_address,
            access: AccessKind::Unknown,
        })
    } else {
        None
    }
}

/// The address that the thread of an exception tried to reach. There is none if its code does not tell.
pub(crate) fn reached_on(platform: Platform, fields: &ExceptionRecord) -> Option<Reached>
    ensures { result ≡ reached_on platform fields.now }
{
    let code = fields.exception_code;
    match platform {
        Platform::Windows => {
            if is_access_fault(code) && fields.number_parameters >= 2 {
                Some(Reached {
                    address: fields.exception_information[1],
                    access: AccessKind::of_parameter(fields.exception_information[0]),
                })
            } else {
                None
            }
        }
        Platform::Linux => reached_plainly(has_address(code), fields),
        // EXC_BAD_ACCESS
        Platform::Apple => reached_plainly(code == 1, fields),
        Platform::Other => None,
    }
}

//! Where the bytes of a text or a dump go.
ghost use Rattle.std.specs.Prelude.{◌≡◌, ◌≤◌, ◌||◌, length, take, nat_lt, IfOk, OnErr, is_err};
ghost use Rattle.mdmp_source.specs.Count.{raised_if};
ghost use Rattle.mdmp_source.specs.Store.{is_empty_answer};
ghost use Rattle.mdmp_source.specs.Output.{OutState, Keeps, Takes, Puts, refused_if};
ghost use Rattle.mdmp_source.specs.Calls.{Sends, SendsAll};

use crate::calls::AskedOut;

/// An output refused a call.
#[derive(Clone, Copy, Debug, PartialEq, Eq)]
pub struct OutFailed;

/// Something that takes bytes, of which a call may take some.
///
/// What an output has taken is stated where it is known: the bytes of an output in memory are, and
/// those that went to a terminal are not.
// std's `Write` has no count of its failures, so no clause over it could say why a text was cut.
pub trait Out {
    ghost use Rattle.mdmp_source.specs.Output.{OutState, Keeps, Takes, Puts, refused_if};

    /// The bytes that it took so far, where they are known; how often it refused: answered an error, or
    /// took none of some bytes; and the loans by which it is reached.
    ghost state: { Self → OutState };

    /// Takes the first bytes of `bytes`, and answers how many.
    fn write(&mut self, bytes: &[u8]) -> Result<usize, OutFailed>
        ensures bound { IfOk result (λ k. k ≤ length bytes.now) }
        ensures took { IfOk result (λ k. Takes (state self.old).taken (take k bytes.now) (state self.new).taken) }
        ensures none { OnErr result (Keeps (state self.old).taken (state self.new).taken) }
        ensures failures { (state self.new).failures
            ≡ refused_if (is_err result || is_empty_answer result (length bytes.now)) (state self.old).failures };
}

/// An output that is lent is one too, and tells its loan.
impl<O: Out> Out for &mut O {
    ghost use Rattle.mdmp_source.specs.Output.{lent};

    ghost state = { λ o. lent o.ghost_name (O.state o.now) };

    fn write(&mut self, bytes: &[u8]) -> Result<usize, OutFailed> {
        O::write(*self, bytes)
    }
}

/// The count of refusals after a call with this answer.
pub(crate) fn failures_after(
    failures: u128,
    answer: &Result<usize, OutFailed>,
    asked: usize,
) -> u128
    ensures { result ≡ raised_if (is_err answer.now || is_empty_answer answer.now asked) failures }
{
    match answer {
        Ok(count) if *count > 0 || asked == 0 => failures,
        _ => failures.saturating_add(1),
    }
}

/// Writes the bytes up to the output's first refusal, by as many calls as it takes, and answers how
/// many went out. Each call is handed all bytes that are left.
pub fn send<O: Out + AskedOut>(out: &mut O, bytes: &[u8]) -> usize
    ensures bound { result ≤ length bytes.now }
    ensures took { Takes (O.state out.old).taken (take result bytes.now) (O.state out.new).taken }
    ensures failures { (O.state out.new).failures
        ≡ refused_if (nat_lt result (length bytes.now)) (O.state out.old).failures }
    ensures calls { Sends O.may_take out.old bytes.now result out.new }
{
    let mut sent = 0;
    while sent < bytes.len() {
        match out.ask(&bytes[sent..]) {
            Ok(0) => return sent,
            Ok(count) => sent += count,
            Err(_) => return sent,
        }
    }
    sent
}

/// Writes all of the bytes, by as many calls as it takes. Where the output refuses, the first of
/// them went out. Each call is handed all bytes that are left.
pub fn write_all<O: Out + AskedOut>(out: &mut O, bytes: &[u8]) -> Result<(), OutFailed>
    ensures puts { Puts result (O.state out.old) bytes.now (O.state out.new) }
    ensures calls { SendsAll O.may_take result out.old bytes.now out.new }
{
    if send(out, bytes) == bytes.len() {
        Ok(())
    } else {
        Err(OutFailed)
    }
}

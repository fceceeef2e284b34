//! An output over a writer of std.
ghost use Rattle.std.specs.Prelude.{◌≡◌};

use crate::calls::AskedWriter;
use crate::output::{Out, OutFailed, failures_after};
use std::io::Write;

/// An output over a writer. What it took is known where the writer's contents are.
#[derive(Drop)]
pub struct WriteOut<W> {
    writer: W,
    failures: u128,
}

impl<W: Write> WriteOut<W> {
    ghost use Rattle.mdmp_source.specs.Output.{OutState, unlent};

    /// An output over this writer, which has not refused yet.
    pub fn new(writer: W) -> Self
        ensures { ⟦<WriteOut<W> as Out>⟧.state result ≡ record { taken = W.contents writer; failures = unlent 0 } }
    {
        WriteOut {
            writer,
            failures: 0,
        }
    }

    /// Hands the writer back. It is not flushed.
    pub fn into_inner(self) -> W
        ensures { W.contents result ≡ (⟦<WriteOut<W> as Out>⟧.state self).taken }
    {
        let WriteOut {
            writer,
            failures: _,
        } = self;
        writer
    }
}

impl<W: Write + AskedWriter> Out for WriteOut<W> {
    ghost use Rattle.std.specs.Prelude.{◌≤◌, ◌||◌, IfOk, OnErr, is_err, length, take};
    ghost use Rattle.mdmp_source.specs.Count.{raised_if};
    ghost use Rattle.mdmp_source.specs.Output.{Keeps, OutState, Takes, unlent};
    ghost use Rattle.mdmp_source.specs.Store.{is_empty_answer};

    ghost state = { λ o. record { taken = W.contents o.writer; failures = unlent o.failures } };

    /// Asks the writer once.
    fn write(&mut self, bytes: &[u8]) -> Result<usize, OutFailed>
        ensures bound { IfOk result (λ k. k ≤ length bytes.now) }
        ensures took { IfOk result (λ k. Takes (W.contents self.old.writer) (take k bytes.now) (W.contents self.new.writer)) }
        ensures none { OnErr result (Keeps (W.contents self.old.writer) (W.contents self.new.writer)) }
        ensures failures { self.new.failures
            ≡ raised_if (is_err result || is_empty_answer result (length bytes.now)) self.old.failures }
        // What this output says beside any other.
        ensures asked { W.may_write self.old.writer bytes.now result self.new.writer }
    {
        let answer = self.writer.ask(bytes);
        self.failures = failures_after(self.failures, &answer, bytes.len());
        answer
    }
}

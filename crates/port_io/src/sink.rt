// Where bytes go.
ghost use Rattle.std.specs.Prelude.{◌≡◌, ℕ, ◌<◌, ◌≤◌, List, Option, IfOk, IfErr, OnOk, OnErr, length, take, ◌⊎◌};
ghost use Rattle.port_io.specs.Ports.{Risen, Gains};

use crate::Failed;

/// Where bytes go.
pub trait Sink {
    /// The bytes that it took, in their order. None where the sink does not tell.
    ghost held: { Self → Option (List ℕ) };

    /// How many writes failed, or took nothing of a piece that was not empty.
    ghost faults: { Self → ℕ };

    /// Takes the front of the bytes and tells how many that was. A write that failed took nothing.
    fn write(&mut self, bytes: &[u8]) -> Result<usize, Failed>
        ensures bound { IfOk result (λ n. n ≤ length bytes.now) }
        ensures taken { IfOk result (λ n. Gains (held self.old) (held self.new) (take n bytes.now)) }
        ensures nothing { IfOk result (λ n. n ≡ 0 → 0 < length bytes.now → Risen (faults self.old) (faults self.new)) }
        ensures untaken { OnErr result (held self.new ≡ held self.old) }
        ensures failed { OnErr result (Risen (faults self.old) (faults self.new)) }
        ensures worked { IfOk result (λ n. (0 < n) ⊎ (length bytes.now ≡ 0) → faults self.new ≡ faults self.old) }
        ensures no_fall { faults self.old ≤ faults self.new };
}

/// Why a sink took no more.
#[derive(Clone, Copy, Debug, PartialEq, Eq)]
pub enum SinkWhy {
    /// A write failed.
    Failed,
    /// A write took no byte.
    TookNothing,
}

/// How many bytes went out, and why no more did.
#[derive(Clone, Copy, Debug, PartialEq, Eq)]
pub struct SinkStop {
    /// How many bytes went out.
    pub sent: usize,
    /// Why no more did.
    pub why: SinkWhy,
}

/// Writes all the bytes, in as many writes as the sink wants. An error tells how many of them, from the first on,
/// went out.
#[tactic(auto, using(crate::proofs::Pieces::gains_both, crate::proofs::Pieces::take_rest))]
pub fn write_all_of<K: Sink>(sink: &mut K, bytes: &[u8]) -> Result<(), SinkStop>
    ensures all { OnOk result (Gains (K.held sink.old) (K.held sink.new) bytes.now) }

    ensures unsent { IfErr result (λ stop. stop.sent < length bytes.now) }
    ensures sent { IfErr result (λ stop. Gains (K.held sink.old) (K.held sink.new) (take stop.sent bytes.now)) }
    ensures failed { OnErr result (Risen (K.faults sink.old) (K.faults sink.new)) }
    ensures worked { OnOk result (K.faults sink.new ≡ K.faults sink.old) }

    ensures no_fall { K.faults sink.old ≤ K.faults sink.new }
{
    let mut sent = 0;
    while sent < bytes.len() {
        match sink.write(&bytes[sent..]) {
            Ok(0) => return Err(SinkStop {
                sent,
                why: SinkWhy::TookNothing,
            }),
            Ok(n) => sent += n,
            Err(Failed) => return Err(SinkStop {
                sent,
                why: SinkWhy::Failed,
            }),
        }
    }
    Ok(())
}

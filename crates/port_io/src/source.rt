// Where bytes come from.
ghost use Rattle.std.specs.Prelude.{◌≡◌, ℕ, ◌<◌, ◌≤◌, List, Option, IfSome, IfOk, IsErr, OnOk, OnErr, IsErrOf, length, take};
ghost use Rattle.port_io.specs.Ports.{Risen, Gives, IsAtEnd, LosesFront};

use crate::Failed;
use std::alloc::{AllocError, Global};

/// Where bytes come from.
pub trait Source {
    /// The bytes that are left, in their order. None where the source does not tell.
    ghost left: { Self → Option (List ℕ) };

    /// How many reads failed.
    ghost faults: { Self → ℕ };

    /// Fills the front of the buffer and tells how many bytes that was. 0 for a buffer that is not empty means
    /// that the input has ended. A read that failed took nothing.
    fn read(&mut self, buf: &mut [u8]) -> Result<usize, Failed>
        ensures bound { IfOk result (λ n. n ≤ length buf.old) }
        ensures taken { IfOk result (λ n. Gives (left self.old) (left self.new) (take n buf.new)) }
        ensures end { IfOk result (λ n. n ≡ 0 → 0 < length buf.old → IsAtEnd (left self.old)) }
        ensures untaken { OnErr result (left self.new ≡ left self.old) }
        ensures failed { OnErr result (Risen (faults self.old) (faults self.new)) }
        ensures worked { OnOk result (faults self.new ≡ faults self.old) }
        ensures no_fall { faults self.old ≤ faults self.new };
}

/// Why a source was not read to its end.
#[derive(Clone, Copy, Debug, PartialEq, Eq)]
pub enum ReadStop {
    /// A read failed.
    Failed,
    /// It has more bytes than were allowed.
    TooLong,
    /// Memory was refused.
    NoMemory,
}

impl From<AllocError> for ReadStop {
    ghost use Rattle.port_io.specs.declared.source.ReadStop.TheVariants.{NoMemory};

    ghost from_gives = { λ _ stop. stop ≡ NoMemory };

    fn from(_: AllocError) -> ReadStop {
        ReadStop::NoMemory
    }
}

/// How many bytes are asked of a source at once.
const PIECE: usize = 8192;

/// Reads all that is left, which may be up to `limit` bytes. Each turn takes a byte or more. On an error what was
/// read is given up.
#[tactic(auto, using(crate::proofs::Pieces::gives_both, crate::proofs::Pieces::gives_last, crate::proofs::Pieces::stays_at_end, crate::proofs::Pieces::given_was_left, crate::proofs::Pieces::all_given, crate::proofs::Pieces::loses_front))]
pub fn read_up_to<S: Source>(
    alloc: Global,
    source: &mut S,
    limit: usize,
) -> Result<Vec<u8>, ReadStop>
    ensures all { IfOk result (λ bytes. Gives (S.left source.old) (S.left source.new) bytes.items) }
    ensures end { OnOk result (IsAtEnd (S.left source.new)) }
    ensures within { IfOk result (λ bytes. length bytes.items ≤ limit) }

    ensures too_long { IsErrOf result ReadStop.TooLong → IfSome (S.left source.old) (λ left. limit < length left) }
    ensures long { IfSome (S.left source.old) (λ left. limit < length left → IsErr result) }
    ensures failed { IsErrOf result ReadStop.Failed → Risen (S.faults source.old) (S.faults source.new) }
    // The count of faults rises with Failed alone.
    ensures worked { (IsErrOf result ReadStop.Failed → ⊥) → S.faults source.new ≡ S.faults source.old }

    ensures given_up { OnErr result (LosesFront (S.left source.old) (S.left source.new)) }
    ensures no_fall { S.faults source.old ≤ S.faults source.new }
{
    let mut bytes = Vec::new(alloc);
    let mut piece = [0u8; PIECE];
    while bytes.len() <= limit {
        match source.read(&mut piece) {
            Ok(0) => return Ok(bytes),
            Ok(n) => bytes.extend_from_slice(&piece[..n])?,
            Err(Failed) => return Err(ReadStop::Failed),
        }
    }
    Err(ReadStop::TooLong)
}

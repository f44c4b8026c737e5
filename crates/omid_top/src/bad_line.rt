// Naming what is bad in a script.
ghost use Rattle.std.specs.Prelude.{◌≡◌, ◌≢◌, ◌⊎◌};
ghost use Rattle.port_io.specs.Ports.{Risen, Gains};
ghost use Rattle.omid_top.specs.Promise.{GainsFront};
ghost use Rattle.omid_top.specs.Texts.{bad_line_text};

use crate::script::ScriptCause;
use crate::{Status, print};
use port_io::Sink;

/// Names the first bad line of a script and its cause.
pub fn named<K: Sink>(sink: &mut K, number: u64, cause: ScriptCause) -> Status
    ensures told { result.code ≡ 3 → Gains (K.held sink.old) (K.held sink.new) (bad_line_text (record { line = number; cause = cause })) }
    ensures cut { result.code ≡ 5 → GainsFront (K.held sink.old) (K.held sink.new) (bad_line_text (record { line = number; cause = cause })) }
    ensures sink_failed { result.code ≡ 5 → Risen (K.faults sink.old) (K.faults sink.new) }
    ensures sink_worked { result.code ≢ 5 → K.faults sink.new ≡ K.faults sink.old }
    ensures codes { (result.code ≡ 3) ⊎ (result.code ≡ 5) }
{
    match print::print_bad_line(sink, number, cause) {
        Ok(()) => Status::BAD_INPUT,
        Err(_) => Status::SINK_FAILED,
    }
}

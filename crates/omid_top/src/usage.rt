// The line that lists the words of commands.
ghost use Rattle.std.specs.Prelude.{◌≡◌, ◌≢◌};
ghost use Rattle.port_io.specs.Ports.{Risen};
ghost use Rattle.omid_top.specs.Commands.{SaysUsage};

use crate::{Status, print};
use port_io::Sink;

/// Writes the usage line.
pub fn say_usage<K: Sink>(sink: &mut K) -> Status
    ensures usage { SaysUsage result.code (K.held sink.old) (K.held sink.new) }
    ensures sink_failed { result.code ≡ 5 → Risen (K.faults sink.old) (K.faults sink.new) }
    ensures sink_worked { result.code ≢ 5 → K.faults sink.new ≡ K.faults sink.old }
{
    match print::print_usage(sink) {
        Ok(()) => Status::USAGE,
        Err(_) => Status::SINK_FAILED,
    }
}

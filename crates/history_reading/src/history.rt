// Cutting a history's bytes into lines.
ghost use Rattle.std.specs.Prelude.{◌≡◌, ◌<◌, ◌∷◌, [], length, position, IfSome, MatchOption};
ghost use Rattle.history_reading.specs.History.{is_line_feed, lines_of};

use memchr::memchr;
use std::alloc::AllocError;

/// Why bytes were not read as a history.
#[derive(Clone, Copy, Debug, PartialEq, Eq)]
pub enum HistoryFault {
    /// The line of this number, counted from 1, is the first that is no item. Line 0 stands for too many bytes.
    At { line: u64 },
    /// Memory was refused.
    NoMemory,
}

impl From<AllocError> for HistoryFault {
    ghost use Rattle.std.specs.Prelude.{◌≡◌};
    ghost use Rattle.history_reading.specs.declared.history.HistoryFault.TheVariants.{NoMemory};

    ghost from_gives = { λ _ fault. fault ≡ NoMemory };

    fn from(_: AllocError) -> HistoryFault {
        HistoryFault::NoMemory
    }
}

/// The first line and the bytes after it, where a line feed ends it; without a line feed, all bytes are one line.
pub fn cut_line(bytes: &[u8]) -> Option<(&[u8], &[u8])>
    ensures lines { MatchOption result (lines_of bytes.now ≡ bytes.now ∷ []) (λ cut. lines_of bytes.now ≡ cut.0.now ∷ lines_of cut.1.now) }
    ensures shorter { IfSome result (λ cut. length cut.1.now < length bytes.now) }
{
    match line_end(bytes) {
        Some(end) => Some((&bytes[..end], &bytes[end + 1..])),
        None => None,
    }
}

/// Where the first line feed stands.
fn line_end(bytes: &[u8]) -> Option<usize>
    ensures place { result ≡ position is_line_feed bytes.now }
    ensures within { IfSome result (λ end. end < length bytes.now) }
{
    memchr(b'\n', bytes)
}

//! The stamps of one grant: they rise by one from an epoch up to a ceiling.
#![tactic(auto)]

ghost use Rattle.std.specs.Prelude.{◌≡◌, ◌+◌, ◌^◌, ◌<◌, MatchOption, IfSome, IfNone};
ghost use Rattle.stamp_base.specs.Ranges.{IsStampRange, IsWithin};

use stamp_base::Stamp;
use std::marker::Model;

/// What is left to draw: the stamps above the last one, up to the ceiling. They are numbers of the oracle's, no ticks of a clock.
#[derive(Clone, Copy, Debug, PartialEq, Eq)]
pub struct Range {
    last: u64,
    ceiling: u64,
}

impl Model for Range {
    ghost use Rattle.stamp_base.specs.Ranges.{IsStampRange};
    ghost use Rattle.epoch_clock.specs.Span.{Span};

    ghost Value = { Span };

    ghost view = { λ r. record { last = r.last; ceiling = r.ceiling } };

    ghost invariant = { λ r. IsStampRange r.last r.ceiling };

    ghost inverse = { λ s. record { last = s.last; ceiling = s.ceiling } };
}

impl Range {
    ghost use Rattle.epoch_clock.specs.Span.{Span};

    /// The stamps from `epoch + 1` up to `ceiling`.
    pub fn new(epoch: u64, ceiling: u64) -> Range
        requires { IsStampRange epoch ceiling }
        ensures last { result.last ≡ epoch }
        ensures ceiling { result.ceiling ≡ ceiling }
    {
        Range {
            last: epoch,
            ceiling,
        }
    }

    /// The next stamp, one above the last. None exactly where the range is used up, and then nothing changes.
    pub fn draw(&mut self) -> Option<Stamp>
        ensures cases { MatchOption result (self.old.last ≡ self.old.ceiling) (λ _. self.old.last < self.old.ceiling) }
        ensures stamp { IfSome result (λ stamp. stamp ≡ self.old.last + 1) }
        ensures moved { IfSome result (λ stamp. self.new ≡ record self.old { last = stamp }) }
        ensures unchanged { IfNone result (self.new ≡ self.old) }
    {
        if self.last == self.ceiling {
            return None;
        }
        let stamp = Stamp::new(self.last + 1)?;
        self.last = stamp.value();
        Some(stamp)
    }

    /// Raises the ceiling.
    pub fn widen(&mut self, ceiling: u64)
        requires { IsWithin self.old.ceiling (2 ^ 62) ceiling }
        ensures { self.new ≡ record self.old { ceiling = ceiling } }
    {
        self.ceiling = ceiling;
    }

    /// The stamp that was drawn last, or the epoch before the first.
    pub fn last(&self) -> u64
        ensures value { result ≡ self.now.last }
        ensures range { IsStampRange self.now.last self.now.ceiling }
    {
        self.last
    }

    /// The greatest stamp that can be drawn.
    pub fn ceiling(&self) -> u64
        ensures value { result ≡ self.now.ceiling }
        ensures range { IsStampRange self.now.last self.now.ceiling }
    {
        self.ceiling
    }
}

ghost use Rattle.history_reading.specs.TextLaw.{TextsDiffer};

/// A law of the texts: no two items have one text.
pub fn texts_differ()
    ensures { TextsDiffer }
{}

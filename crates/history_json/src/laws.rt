ghost use Rattle.history_json.specs.Laws.{IsOneHistory, HasNoBadLine};

/// A law of histories, of either format: bytes are those of one list of items or have a first bad line, and not both.
pub fn one_history()
    ensures one { IsOneHistory }
    ensures either { HasNoBadLine }
{}

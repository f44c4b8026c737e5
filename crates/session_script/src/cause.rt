ghost use Rattle.std.specs.Prelude.{◌≡◌};
ghost use Rattle.session_script.specs.Causes.{cause_text};

/// Why a line is none of a script, in the order in which a line is tested.
#[derive(Clone, Copy, Debug, PartialEq, Eq)]
pub enum ScriptCause {
    /// The script has more than 16,777,216 bytes. The line is given as 0.
    TooLong,
    /// The line is one more than may be neither empty nor comments.
    TooManyLines,
    /// A byte is no visible ASCII, space or tab, and the line is no comment.
    BadByte,
    /// The first word begins no setup line and is no actor.
    UnknownActor,
    /// The actor has no such verb.
    UnknownVerb,
    /// The form has more words or fewer.
    WrongNumberOfWords,
    /// The mode leaves such a line to a replay.
    ReplayOnly,
    /// A word is no number.
    BadNumber,
    /// A number is out of its bounds.
    OutOfRange,
    /// A word is none of the nodes, nor the master where that may stand.
    UnknownNode,
    /// A word is no session.
    BadSession,
    /// A word is no key.
    BadKey,
    /// A word is no value: it has more than 64 bytes.
    BadValue,
    /// A word is no stage.
    UnknownStage,
    /// A word is no store.
    UnknownStore,
    /// A word is no kind of fault, or turns nothing on.
    UnknownKind,
    /// A word is no name.
    BadName,
    /// A setup line stands behind an actor's line, or one that bounds the leads behind a lead.
    SetupOrder,
    /// A setup line sets what an earlier one set.
    SetupTwice,
    /// The line would plan the 33rd fault.
    TooManyFaults,
    /// An earlier line posts the name.
    PostedTwice,
    /// No earlier line posts the name that is awaited.
    NameNotPosted,
}

impl ScriptCause {
    /// The cause in the words of the error line.
    pub fn text(&self) -> &'static [u8]
        ensures { result.now ≡ cause_text self.now }
    {
        match self {
            ScriptCause::TooLong => b"too long",
            ScriptCause::TooManyLines => b"too many lines",
            ScriptCause::BadByte => b"bad byte",
            ScriptCause::UnknownActor => b"unknown actor",
            ScriptCause::UnknownVerb => b"unknown verb",
            ScriptCause::WrongNumberOfWords => b"wrong number of words",
            ScriptCause::ReplayOnly => b"replay only",
            ScriptCause::BadNumber => b"bad number",
            ScriptCause::OutOfRange => b"out of range",
            ScriptCause::UnknownNode => b"unknown node",
            ScriptCause::BadSession => b"bad session",
            ScriptCause::BadKey => b"bad key",
            ScriptCause::BadValue => b"bad value",
            ScriptCause::UnknownStage => b"unknown stage",
            ScriptCause::UnknownStore => b"unknown store",
            ScriptCause::UnknownKind => b"unknown kind",
            ScriptCause::BadName => b"bad name",
            ScriptCause::SetupOrder => b"setup order",
            ScriptCause::SetupTwice => b"setup twice",
            ScriptCause::TooManyFaults => b"too many faults",
            ScriptCause::PostedTwice => b"posted twice",
            ScriptCause::NameNotPosted => b"name not posted",
        }
    }
}

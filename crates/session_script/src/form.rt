// The forms of lines: how many words each has, and which only a replay takes.
ghost use Rattle.std.specs.Prelude.{◌≡◌};
ghost use Rattle.session_script.specs.Grammar.{setup_words, verb_words, is_replay_only};

use stamp_base::{SetupFlag, SetupNumber};

/// The form of a setup line, whatever its arguments are.
#[derive(Clone, Copy, Debug, PartialEq, Eq)]
pub enum SetupForm {
    /// One number.
    Number(SetupNumber),
    /// A word that turns something on.
    Flag(SetupFlag),
    /// How many buckets, and how many keys each keeps.
    Buckets,
    /// The lead of a node's clock.
    Lead,
    /// A fault of a call on a store.
    Fault,
}

/// The form of an actor's line, whatever its arguments are.
#[derive(Clone, Copy, Debug, PartialEq, Eq)]
pub enum VerbForm {
    /// `tick` of the clock.
    Tick,
    /// `take` of a node.
    Take,
    /// `renew` of a node.
    Renew,
    /// `crash` of a node.
    Crash,
    /// `extend` of a node.
    Extend,
    /// `hold` of a node.
    Hold,
    /// `free` of a node.
    Free,
    /// `accept` of a node.
    Accept,
    /// `decide` of a node.
    Decide,
    /// `put` of a node.
    Put,
    /// `answer` of a node.
    Answer,
    /// `begin` of a session.
    Begin,
    /// `commit` of a session.
    Commit,
    /// `submit` of a session.
    Submit,
    /// `ask-begin` of a session.
    AskBegin,
    /// `ask-commit` of a session.
    AskCommit,
    /// `write` of a session.
    Write,
    /// `read` of a session.
    Read,
    /// `fetch` of a session.
    Fetch,
    /// `collect` of a session.
    Collect,
    /// `abort` of a session.
    Abort,
    /// `heal` of a session.
    Heal,
    /// `vanish` of a session.
    Vanish,
    /// `step` of a session.
    Step,
    /// `finish` of a session.
    Finish,
    /// `sweep` of the janitor.
    Sweep,
    /// `open` of the janitor.
    OpenSweep,
    /// `step` of the janitor.
    SweepStep,
    /// `finish` of the janitor.
    SweepFinish,
    /// `post` of any actor.
    Post,
    /// `await` of any actor.
    Await,
}

impl SetupForm {
    /// How many words a line of the form has, the setup word included.
    pub fn words(self) -> usize
        ensures { result ≡ setup_words self }
    {
        match self {
            SetupForm::Number(_) | SetupForm::Flag(_) => 2,
            SetupForm::Buckets | SetupForm::Lead => 3,
            SetupForm::Fault => 4,
        }
    }
}

impl VerbForm {
    /// How many words a line of the form has, the actor included.
    pub fn words(self) -> usize
        ensures { result ≡ verb_words self }
    {
        match self {
            VerbForm::Take | VerbForm::Renew | VerbForm::Crash | VerbForm::Extend => 2,
            VerbForm::Collect | VerbForm::Abort | VerbForm::Heal | VerbForm::Vanish => 2,
            VerbForm::Step | VerbForm::Finish => 2,
            VerbForm::SweepStep | VerbForm::SweepFinish => 2,
            VerbForm::Tick | VerbForm::Hold | VerbForm::Free => 3,
            VerbForm::Accept | VerbForm::Decide | VerbForm::Put | VerbForm::Answer => 3,
            VerbForm::Begin | VerbForm::Commit | VerbForm::Submit => 3,
            VerbForm::AskBegin | VerbForm::AskCommit => 3,
            VerbForm::Read | VerbForm::Fetch | VerbForm::Post | VerbForm::Await => 3,
            VerbForm::Write | VerbForm::Sweep | VerbForm::OpenSweep => 4,
        }
    }

    /// Whether only a replay takes lines of the form.
    pub fn is_replay_only(self) -> bool
        ensures { result ≡ is_replay_only self }
    {
        match self {
            VerbForm::Accept | VerbForm::Decide | VerbForm::Put | VerbForm::Answer => true,
            VerbForm::Extend | VerbForm::AskBegin | VerbForm::AskCommit => true,
            _ => false,
        }
    }
}

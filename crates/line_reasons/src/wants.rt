// What the text of a member has to be.
ghost use Rattle.std.specs.Prelude.{◌≡◌};
ghost use Rattle.history_reading.specs.ReadWords.{is_word};
ghost use Rattle.line_reasons.specs.Wants.{is_stamp_name, noted_wants, text_wants, told_of, wants_of, wants_text};

/// What the text of a member has to be.
#[derive(Clone, Copy)]
pub enum Wants {
    /// A whole number of 64 bits.
    Number,
    /// A term, from 1.
    Term,
    /// A stamp, from 1 to 2^62.
    Stamp,
    /// A node's letter.
    Node,
    /// A session's name.
    Session,
    /// A key's name.
    Key,
    /// A value's text.
    Value,
    /// How a transaction ended.
    Ending,
    /// An actor's name.
    Actor,
    /// The word of a note.
    Note,
    /// The name that a note posts or awaits.
    Name,
    /// The stage that a note holds or frees.
    Stage,
    /// A step on a store.
    Step,
    /// The cause of a refusal.
    Cause,
    /// The word of a store.
    Store,
}

/// What the member of this name wants, in a line of this kind whose member `note` says so.
#[tactic(auto, unfolding(crate::specs::Wants::wants_of))]
pub fn wants_of(kind: &[u8], noted: &[u8], name: &[u8]) -> Wants
    ensures { result ≡ wants_of kind.now noted.now name.now }
{
    if is_word(name, b"term") {
        Wants::Term
    } else if is_stamp_name(name) {
        Wants::Stamp
    } else if is_word(name, b"node") {
        Wants::Node
    } else if is_word(name, b"session") {
        Wants::Session
    } else if is_word(name, b"key") {
        Wants::Key
    } else if is_word(name, b"value") {
        Wants::Value
    } else if is_word(name, b"how") {
        Wants::Ending
    } else {
        told_of(kind, noted, name)
    }
}

fn is_stamp_name(name: &[u8]) -> bool
    ensures { result ≡ is_stamp_name name.now }
{
    is_word(name, b"start") || is_word(name, b"commit") || is_word(name, b"from")
}

/// As `wants_of`, for the members of what actors are told of, and for plain numbers.
fn told_of(kind: &[u8], noted: &[u8], name: &[u8]) -> Wants
    ensures { result ≡ told_of kind.now noted.now name.now }
{
    if is_word(name, b"actor") {
        Wants::Actor
    } else if is_word(name, b"note") {
        Wants::Note
    } else if is_word(name, b"store") {
        Wants::Store
    } else if is_word(name, b"name") {
        noted_wants(noted)
    } else if is_word(name, b"text") {
        text_wants(kind)
    } else {
        Wants::Number
    }
}

fn noted_wants(noted: &[u8]) -> Wants
    ensures { result ≡ noted_wants noted.now }
{
    if is_word(noted, b"hold") || is_word(noted, b"free") {
        Wants::Stage
    } else {
        Wants::Name
    }
}

fn text_wants(kind: &[u8]) -> Wants
    ensures { result ≡ text_wants kind.now }
{
    if is_word(kind, b"step") {
        Wants::Step
    } else {
        Wants::Cause
    }
}

/// Whether the bytes are this word.
pub fn is_word(bytes: &[u8], word: &[u8]) -> bool
    ensures { result ≡ is_word word.now bytes.now }
{
    bytes == word
}

/// What is wanted, in words.
pub fn wants_words(wants: Wants) -> &'static [u8]
    ensures { result.now ≡ wants_text wants }
{
    match wants {
        Wants::Number => b"a whole number below 18446744073709551616, with no zero in front",
        Wants::Term => b"1 to 18446744073709551615, with no zero in front",
        Wants::Stamp => b"1 to 4611686018427387904, with no zero in front",
        Wants::Node => b"a to h",
        Wants::Session => b"s0 to s15",
        Wants::Key => b"k0 to k4095",
        Wants::Value => b"1 to 64 visible bytes",
        Wants::Ending => b"read-only, aborted or dead",
        Wants::Actor => b"clock, janitor, a to h, or s0 to s15",
        Wants::Note => b"post, await, hold or free",
        Wants::Name => b"1 to 16 letters, digits or dashes",
        Wants::Stage => b"request, persist or reply",
        Wants::Step => b"a step on a store",
        Wants::Cause => b"the cause of a refusal",
        Wants::Store => b"cells, table or master",
    }
}

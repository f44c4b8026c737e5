// The rows: for each kind, the words of its line, and between them the names of the members that they stand beside.
ghost use Rattle.std.specs.Prelude.{◌≡◌, map};
ghost use Rattle.std.specs.Option.{option_map};
ghost use Rattle.history_reading.specs.ReadWords.{is_word};
ghost use Rattle.history_json.specs.Words.{node_row, draw_row, request_row, read_row, session_row, actor_row, row_of};

/// Words and names in turn.
pub type Row = &'static [&'static str];

/// The row of an object of this kind, which has a member `commit`, and one `from`, or not.
#[tactic(auto, unfolding(crate::specs::Words::row_of))]
pub fn row_of(kind: &[u8], commit: bool, from: bool) -> Option<Row>
    ensures { option_map (λ row. map (λ part. part.now) row.now) result ≡ row_of kind.now commit from }
{
    if let Some(row) = node_row(kind) {
        return Some(row);
    }
    if let Some(row) = request_row(kind, commit) {
        return Some(row);
    }
    if let Some(row) = session_row(kind, from) {
        return Some(row);
    }
    actor_row(kind)
}

fn is_kind(kind: &[u8], word: &[u8]) -> bool
    ensures { result ≡ is_word word.now kind.now }
{
    kind == word
}

#[tactic(auto, unfolding(crate::specs::Words::node_row))]
fn node_row(kind: &[u8]) -> Option<Row>
    ensures { option_map (λ row. map (λ part. part.now) row.now) result ≡ node_row kind.now }
{
    if is_kind(kind, b"tick") {
        return Some(&["tick ", "to"]);
    }
    if is_kind(kind, b"take") {
        return Some(&[
            "take ",
            "node",
            " reading=",
            "reading",
            " term=",
            "term",
            " epoch=",
            "epoch",
            " until=",
            "until",
            " ceiling=",
            "ceiling",
        ]);
    }
    if is_kind(kind, b"renew") {
        return Some(&[
            "renew ",
            "node",
            " reading=",
            "reading",
            " term=",
            "term",
            " until=",
            "until",
        ]);
    }
    if is_kind(kind, b"extend") {
        return Some(&["extend ", "node", " term=", "term", " ceiling=", "ceiling"]);
    }
    if is_kind(kind, b"crash") {
        return Some(&["crash ", "node", " term=", "term"]);
    }
    None
}

#[tactic(auto, unfolding(crate::specs::Words::request_row))]
fn request_row(kind: &[u8], commit: bool) -> Option<Row>
    ensures { option_map (λ row. map (λ part. part.now) row.now) result ≡ request_row kind.now commit }
{
    if is_kind(kind, b"ask-begin") {
        return Some(&["ask-begin ", "session", " ", "node"]);
    }
    if is_kind(kind, b"ask-commit") {
        return Some(&["ask-commit ", "session", " ", "node", " start=", "start"]);
    }
    if is_kind(kind, b"accept") {
        return Some(&[
            "accept ",
            "session",
            " ",
            "node",
            " term=",
            "term",
            " reading=",
            "reading",
        ]);
    }
    if is_kind(kind, b"draw") {
        return draw_row(commit);
    }
    if is_kind(kind, b"placed") {
        return Some(&["placed start=", "start", " commit=", "commit"]);
    }
    None
}

#[tactic(auto, unfolding(crate::specs::Words::session_row))]
fn session_row(kind: &[u8], from: bool) -> Option<Row>
    ensures { option_map (λ row. map (λ part. part.now) row.now) result ≡ session_row kind.now from }
{
    if is_kind(kind, b"begin") {
        return Some(&["begin ", "session", " start=", "start"]);
    }
    if is_kind(kind, b"write") {
        return Some(&[
            "write ", "session", " start=", "start", " ", "key", " ", "value",
        ]);
    }
    if is_kind(kind, b"read") {
        return read_row(from);
    }
    if is_kind(kind, b"committed") {
        return Some(&[
            "committed ",
            "session",
            " start=",
            "start",
            " commit=",
            "commit",
        ]);
    }
    if is_kind(kind, b"end") {
        return Some(&["end ", "session", " start=", "start", " ", "how"]);
    }
    if is_kind(kind, b"vanish") {
        return Some(&["vanish ", "session"]);
    }
    None
}

#[tactic(auto, unfolding(crate::specs::Words::actor_row))]
fn actor_row(kind: &[u8]) -> Option<Row>
    ensures { option_map (λ row. map (λ part. part.now) row.now) result ≡ actor_row kind.now }
{
    if is_kind(kind, b"note") {
        return Some(&["note ", "actor", " ", "note", " ", "name"]);
    }
    if is_kind(kind, b"mark") {
        return Some(&["mark ", "actor", " start=", "start"]);
    }
    if is_kind(kind, b"step") {
        return Some(&["step ", "actor", " ", "text"]);
    }
    if is_kind(kind, b"refused") {
        return Some(&["refused ", "actor", " ", "text"]);
    }
    if is_kind(kind, b"fault") {
        return Some(&["fault ", "actor", " ", "store"]);
    }
    None
}

#[tactic(auto, unfolding(crate::specs::Words::draw_row))]
fn draw_row(commit: bool) -> Option<Row>
    ensures { option_map (λ row. map (λ part. part.now) row.now) result ≡ draw_row commit }
{
    if commit {
        return Some(&[
            "draw ", "session", " ", "node", " term=", "term", " start=", "start", " commit=",
            "commit",
        ]);
    }
    Some(&[
        "draw ", "session", " ", "node", " term=", "term", " start=", "start",
    ])
}

#[tactic(auto, unfolding(crate::specs::Words::read_row))]
fn read_row(from: bool) -> Option<Row>
    ensures { option_map (λ row. map (λ part. part.now) row.now) result ≡ read_row from }
{
    if from {
        return Some(&[
            "read ", "session", " start=", "start", " ", "key", " from=", "from", " ", "value",
        ]);
    }
    Some(&["read ", "session", " start=", "start", " ", "key", " none"])
}

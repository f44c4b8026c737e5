// The causes, as reading finds them.
ghost use Rattle.std.specs.Prelude.{◌≡◌};
ghost use Rattle.history_reading.specs.ReadCauses.{cause_at, transaction_cause_at, lease_cause_at, place_cause_at, plain_cause_at, conflict_at, hidden_at, old_epoch_at, crashed_at, no_oracle_at, undecided_at};

use super::words::{
    after, field, is_word, key_of, last_field, last_stamp, letter, node_of, session_of, split_word,
    stamp_of, term_of, two_fields,
};
use history_book::Cause;

/// A cause.
pub fn cause(bytes: &[u8]) -> Option<Cause>
    ensures { result ≡ cause_at bytes.now }
{
    let (word, rest) = split_word(bytes);
    if let Some(cause) = transaction_cause(word, rest) {
        return Some(cause);
    }
    if let Some(cause) = lease_cause(word, rest) {
        return Some(cause);
    }
    if let Some(cause) = place_cause(word, rest) {
        return Some(cause);
    }
    plain_cause(word)
}

/// The causes of a transaction that cannot commit, or not yet.
#[tactic(auto, unfolding(crate::specs::ReadCauses::transaction_cause_at))]
fn transaction_cause(word: &[u8], bytes: &[u8]) -> Option<Cause>
    ensures { result ≡ transaction_cause_at word.now bytes.now }
{
    if is_word(word, b"conflict") {
        return conflict(bytes);
    }
    if is_word(word, b"hidden") {
        return hidden(bytes);
    }
    if is_word(word, b"old-epoch") {
        return old_epoch(bytes);
    }
    if is_word(word, b"invalid") {
        let start = last_stamp(b"start=", bytes)?;
        return Some(Cause::Invalid { start });
    }
    if is_word(word, b"open") {
        let start = last_stamp(b"start=", bytes)?;
        return Some(Cause::Open { start });
    }
    if is_word(word, b"not-yet") {
        let commit = last_stamp(b"commit=", bytes)?;
        return Some(Cause::NotYet { commit });
    }
    if is_word(word, b"undecided") {
        return undecided(bytes);
    }
    None
}

/// The causes of an instance and its lease.
#[tactic(auto, unfolding(crate::specs::ReadCauses::lease_cause_at))]
fn lease_cause(word: &[u8], bytes: &[u8]) -> Option<Cause>
    ensures { result ≡ lease_cause_at word.now bytes.now }
{
    if is_word(word, b"expired") {
        let (reading, until, _) = two_fields(b"reading=", b" until=", bytes)?;
        return Some(Cause::Expired { reading, until });
    }
    if is_word(word, b"replaced") {
        let found = last_field(b"found=", bytes)?;
        return Some(Cause::Replaced { found });
    }
    if is_word(word, b"spent") {
        let ceiling = last_field(b"ceiling=", bytes)?;
        return Some(Cause::Spent { ceiling });
    }
    if is_word(word, b"no-stamp") {
        let last = last_field(b"last=", bytes)?;
        return Some(Cause::NoStamp { last });
    }
    if is_word(word, b"early") {
        let (reading, until, _) = two_fields(b"reading=", b" until=", bytes)?;
        return Some(Cause::Early { reading, until });
    }
    if is_word(word, b"holding") {
        let term = term_of(last_field(b"term=", bytes)?)?;
        return Some(Cause::Holding { term });
    }
    if is_word(word, b"crashed") {
        return crashed(bytes);
    }
    None
}

/// The causes of a request that has no place.
#[tactic(auto, unfolding(crate::specs::ReadCauses::place_cause_at))]
fn place_cause(word: &[u8], bytes: &[u8]) -> Option<Cause>
    ensures { result ≡ place_cause_at word.now bytes.now }
{
    if is_word(word, b"no-request") {
        let session = session_of(last_field(b"session=s", bytes)?)?;
        return Some(Cause::NoRequest { session });
    }
    if is_word(word, b"no-oracle") {
        return no_oracle(bytes);
    }
    if is_word(word, b"full") {
        let in_flight = last_field(b"in-flight=", bytes)?;
        return Some(Cause::Full { in_flight });
    }
    None
}

/// The causes without fields.
#[tactic(auto, unfolding(crate::specs::ReadCauses::plain_cause_at))]
fn plain_cause(word: &[u8]) -> Option<Cause>
    ensures { result ≡ plain_cause_at word.now }
{
    if is_word(word, b"no-transaction") {
        return Some(Cause::NoTransaction);
    }
    if is_word(word, b"busy") {
        return Some(Cause::Busy);
    }
    if is_word(word, b"too-many-keys") {
        return Some(Cause::TooManyKeys);
    }
    if is_word(word, b"gone") {
        return Some(Cause::Gone);
    }
    if is_word(word, b"idle") {
        return Some(Cause::Idle);
    }
    None
}

#[tactic(auto, unfolding(crate::specs::ReadCauses::conflict_at))]
fn conflict(bytes: &[u8]) -> Option<Cause>
    ensures { result ≡ conflict_at bytes.now }
{
    let (key, by, _) = two_fields(b"key=k", b" by=", bytes)?;
    let key = key_of(key)?;
    let by = stamp_of(by)?;
    Some(Cause::Conflict { key, by })
}

#[tactic(auto, unfolding(crate::specs::ReadCauses::hidden_at))]
fn hidden(bytes: &[u8]) -> Option<Cause>
    ensures { result ≡ hidden_at bytes.now }
{
    let (key, water, _) = two_fields(b"key=k", b" water=", bytes)?;
    let key = key_of(key)?;
    Some(Cause::Hidden { key, water })
}

#[tactic(auto, unfolding(crate::specs::ReadCauses::old_epoch_at))]
fn old_epoch(bytes: &[u8]) -> Option<Cause>
    ensures { result ≡ old_epoch_at bytes.now }
{
    let (start, epoch, _) = two_fields(b"start=", b" epoch=", bytes)?;
    let start = stamp_of(start)?;
    Some(Cause::OldEpoch { start, epoch })
}

#[tactic(auto, unfolding(crate::specs::ReadCauses::crashed_at))]
fn crashed(bytes: &[u8]) -> Option<Cause>
    ensures { result ≡ crashed_at bytes.now }
{
    let rest = after(b"node=", bytes)?;
    let (node, rest) = letter(rest)?;
    let (term, _) = field(b" term=", rest)?;
    let node = node_of(node)?;
    let term = term_of(term)?;
    Some(Cause::Crashed { node, term })
}

#[tactic(auto, unfolding(crate::specs::ReadCauses::no_oracle_at))]
fn no_oracle(bytes: &[u8]) -> Option<Cause>
    ensures { result ≡ no_oracle_at bytes.now }
{
    let rest = after(b"node=", bytes)?;
    let (node, _) = letter(rest)?;
    let node = node_of(node)?;
    Some(Cause::NoOracle { node })
}

#[tactic(auto, unfolding(crate::specs::ReadCauses::undecided_at))]
fn undecided(bytes: &[u8]) -> Option<Cause>
    ensures { result ≡ undecided_at bytes.now }
{
    let (start, epoch, _) = two_fields(b"start=", b" epoch=", bytes)?;
    let start = stamp_of(start)?;
    Some(Cause::Undecided { start, epoch })
}

// The texts that members are.
ghost use Rattle.std.specs.Prelude.{◌≡◌, IsUtf8};
ghost use Rattle.history_text.specs.Words.{node_text, session_text, actor_text, stage_text, store_text};
ghost use Rattle.history_text.specs.CauseText.{cause_text};
ghost use Rattle.history_text.specs.StepText.{step_text};
ghost use Rattle.history_text.specs.Text.{ending_text};

use history_book::{Actor, Cause, Ending, StoreStep};
use history_text::{LineBuf, push_cause, push_step};
use stamp_base::{Name, NodeNo, SessionNo, Stage, Store, Value};
use std::str;

/// The text that the bytes are.
pub fn text_of(bytes: &[u8]) -> &str
    requires { IsUtf8 bytes.now }
    ensures { result.now ≡ bytes.now }
{
    match str::from_utf8(bytes) {
        Ok(text) => text,
        Err(_) => unreachable!(),
    }
}

/// The node's letter, `a` to `h`.
pub fn node_name(node: NodeNo) -> &'static str
    ensures { result.now ≡ node_text node }
{
    match node.value() {
        0 => "a",
        1 => "b",
        2 => "c",
        3 => "d",
        4 => "e",
        5 => "f",
        6 => "g",
        _ => "h",
    }
}

/// The session's name, `s0` to `s15`.
pub fn session_name(session: SessionNo) -> &'static str
    ensures { result.now ≡ session_text session }
{
    match session.value() {
        0 => "s0",
        1 => "s1",
        2 => "s2",
        3 => "s3",
        4 => "s4",
        5 => "s5",
        6 => "s6",
        7 => "s7",
        8 => "s8",
        9 => "s9",
        10 => "s10",
        11 => "s11",
        12 => "s12",
        13 => "s13",
        14 => "s14",
        _ => "s15",
    }
}

/// The actor's name: `clock`, a node's letter, a session's name, or `janitor`.
pub fn actor_name(actor: Actor) -> &'static str
    ensures { result.now ≡ actor_text actor }
{
    match actor {
        Actor::Clock => "clock",
        Actor::Node(node) => node_name(node),
        Actor::Session(session) => session_name(session),
        Actor::Janitor => "janitor",
    }
}

/// The word of a stage.
pub fn stage_name(stage: Stage) -> &'static str
    ensures { result.now ≡ stage_text stage }
{
    match stage {
        Stage::Request => "request",
        Stage::Persist => "persist",
        Stage::Reply => "reply",
    }
}

/// The word of a store.
pub fn store_name(store: Store) -> &'static str
    ensures { result.now ≡ store_text store }
{
    match store {
        Store::Cells => "cells",
        Store::Table => "table",
        Store::Master => "master",
    }
}

/// The word for how a transaction ended.
pub fn ending_name(how: Ending) -> &'static str
    ensures { result.now ≡ ending_text how }
{
    match how {
        Ending::ReadOnly => "read-only",
        Ending::Aborted => "aborted",
        Ending::Dead => "dead",
    }
}

/// The value as text: its bytes are visible ASCII.
#[tactic(auto, using(crate::proofs::PlainLemmas::value_utf8))]
pub fn value_text(value: &Value) -> &str
    ensures { result.now ≡ value.now }
{
    text_of(value.as_slice())
}

/// The name as text: its bytes are ASCII.
#[tactic(auto, using(crate::proofs::PlainLemmas::name_utf8))]
pub fn name_text(name: &Name) -> &str
    ensures { result.now ≡ name.now }
{
    text_of(name.as_slice())
}

/// A line of the step's text.
pub fn step_line(what: StoreStep) -> LineBuf
    ensures { result ≡ step_text what }
{
    let mut line = LineBuf::new();
    push_step(what, &mut line);
    line
}

/// A line of the cause's text.
pub fn cause_line(cause: Cause) -> LineBuf
    ensures { result ≡ cause_text cause }
{
    let mut line = LineBuf::new();
    push_cause(cause, &mut line);
    line
}

// The words of lines, and what is wrong with them.
use history_book::Actor;
use port_io::Fate;
use script_data::{Target, Verb};
use session_script::{
    Mode, ScriptCause, SetupForm, actor_of, cut_line, is_silent, kind_at, node_at, number_at,
    setup_form, store_at, verb_at,
};
use stamp_base::{KeyNo, NodeNo, SessionNo, Setup, Store, Value};
use std::test::Fail;

/// A line, and the cause why a replay takes none like it.
static BAD: [(&str, &str); 57] = [
    // Its words.
    ("s16 begin a", "unknown actor"),
    ("s00 begin a", "unknown actor"),
    ("s begin a", "unknown actor"),
    ("c take", "unknown actor"),
    ("master take", "unknown actor"),
    ("Clock tick 1", "unknown actor"),
    ("q", "unknown actor"),
    ("a fly", "unknown verb"),
    ("a begin a", "unknown verb"),
    ("s0 take", "unknown verb"),
    ("janitor commit a", "unknown verb"),
    ("clock begin a b c", "unknown verb"),
    ("a", "wrong number of words"),
    ("s0", "wrong number of words"),
    ("clock", "wrong number of words"),
    ("a take now", "wrong number of words"),
    ("a take # so it begins", "wrong number of words"),
    ("s0 begin", "wrong number of words"),
    ("s0 write k0", "wrong number of words"),
    ("s0 write k0 v w x y z", "wrong number of words"),
    ("janitor sweep a", "wrong number of words"),
    // An argument.
    ("clock tick 12345678901234567890", "bad number"),
    ("clock tick 007", "bad number"),
    ("clock tick x", "bad number"),
    ("clock tick 1_0", "bad number"),
    ("clock tick +1", "bad number"),
    ("clock tick 0", "out of range"),
    ("clock tick 1000001", "out of range"),
    ("clock tick 9999999999999999999", "out of range"),
    ("janitor sweep a 0", "out of range"),
    ("janitor open a 4611686018427387905", "out of range"),
    ("janitor open a -1", "bad number"),
    ("janitor sweep c 0", "unknown node"),
    ("s1 begin c", "unknown node"),
    ("s1 begin ab", "unknown node"),
    ("s1 begin masters", "unknown node"),
    ("s1 ask-begin master", "unknown node"),
    ("s1 ask-commit master", "unknown node"),
    ("janitor sweep master 1", "unknown node"),
    ("s1 submit 0", "unknown node"),
    ("s1 ask-commit A", "unknown node"),
    ("a accept s16", "bad session"),
    ("b answer a", "bad session"),
    ("a put s01", "bad session"),
    ("s0 write k4096 v", "bad key"),
    ("s0 read k01", "bad key"),
    ("s0 fetch k00", "bad key"),
    ("s0 read k", "bad key"),
    ("s0 read 1", "bad key"),
    ("s0 read k12345678901234567890", "bad key"),
    ("s0 read k-1", "bad key"),
    (
        "s0 write k0 aaaaaaaaaaaaaaaaaaaaaaaaaaaaaaaaaaaaaaaaaaaaaaaaaaaaaaaaaaaaaaaaa",
        "bad value",
    ),
    ("a hold replies", "unknown stage"),
    ("b free s0", "unknown stage"),
    ("a post p_q", "bad name"),
    ("s0 post abcdefghijklmnopq", "bad name"),
    ("janitor await p.q", "bad name"),
];

/// The same of a run.
static BAD_IN_A_RUN: [(&str, &str); 9] = [
    ("a accept s0", "replay only"),
    ("a accept x", "replay only"),
    ("a decide s0", "replay only"),
    ("a put s0", "replay only"),
    ("a answer s0", "replay only"),
    ("b extend", "replay only"),
    ("s0 ask-begin a", "replay only"),
    ("s0 ask-commit z", "replay only"),
    ("a accept", "wrong number of words"),
];

// Behind functions, a proof that goes over the rows does not look into their texts.

fn bad() -> &'static [(&'static str, &'static str)] {
    &BAD
}

fn bad_in_a_run() -> &'static [(&'static str, &'static str)] {
    &BAD_IN_A_RUN
}

/// What a line of an actor says where the nodes are `a` and `b`, or its first cause.
fn said(mode: Mode, text: &str) -> Result<(Actor, Verb), ScriptCause> {
    let setup = Setup::default();
    let Some(words) = cut_line(text.as_bytes()) else {
        return Err(ScriptCause::BadByte);
    };
    match actor_of(&setup, words.first) {
        Some(actor) => Ok((actor, verb_at(mode, &setup, &actor, &words)?)),
        None => Err(ScriptCause::UnknownActor),
    }
}

/// Each line is refused for the cause.
fn refuses(mode: Mode, rows: &[(&str, &str)]) -> Result<(), Fail> {
    for (text, cause) in rows {
        match said(mode, text) {
            Ok(_) => return Err(Fail::from(*text)),
            Err(given) => {
                if given.text() != cause.as_bytes() {
                    return Err(Fail::from(*text));
                }
            }
        }
    }
    Ok(())
}

#[test]
fn names_what_is_wrong_with_a_line() -> Result<(), Fail> {
    refuses(Mode::Replay, bad())?;
    refuses(Mode::Run, bad_in_a_run())
}

/// The line is of the actor and asks for the verb.
fn says(text: &str, actor: Actor, verb: Verb) -> Result<(), Fail> {
    match said(Mode::Replay, text) {
        Ok((given, asked)) if given == actor && asked == verb => Ok(()),
        _ => Err(Fail::from(text)),
    }
}

#[test]
fn reads_a_line_of_each_actor() -> Result<(), Fail> {
    let node = NodeNo::new(1).ok_or("node")?;
    let session = SessionNo::new(3).ok_or("session")?;
    let key = KeyNo::new(7).ok_or("key")?;
    let value = Value::new(b"v").ok_or("value")?;
    says("clock tick 12", Actor::Clock, Verb::Tick { by: 12 })?;
    says("b put s3", Actor::Node(node), Verb::Put { session })?;
    says(
        "s3 write k7 v",
        Actor::Session(session),
        Verb::Write { key, value },
    )?;
    says("janitor step", Actor::Janitor, Verb::Step)
}

/// The line asks for the verb in both modes.
fn sends(text: &str, verb: Verb) -> Result<(), Fail> {
    let session = SessionNo::new(3).ok_or("session")?;
    for mode in [Mode::Replay, Mode::Run] {
        match said(mode, text) {
            Ok((given, asked)) if given == Actor::Session(session) && asked == verb => {}
            _ => return Err(Fail::from(text)),
        }
    }
    Ok(())
}

#[test]
fn reads_where_a_line_is_sent() -> Result<(), Fail> {
    let node = NodeNo::new(1).ok_or("node")?;
    let master = Verb::Begin {
        target: Target::Master,
    };
    sends("s3 begin master", master)?;
    let master = Verb::Commit {
        target: Target::Master,
    };
    sends("s3 commit master", master)?;
    let master = Verb::Submit {
        target: Target::Master,
    };
    sends("s3 submit master", master)?;
    let there = Verb::Submit {
        target: Target::Node(node),
    };
    sends("s3 submit b", there)
}

#[test]
fn reads_what_lines_have_between_their_words(rt: HostRuntime) -> Result<(), Fail> {
    assert!(rt; is_silent(b"\t # two \x01"));
    assert!(rt; !is_silent(b"\ta  take \t"));
    assert!(rt; cut_line(b"a b c d e f\x1f ").is_none());
    let words = cut_line(b"s0 write\tk0  #~! 5 6\t ").ok_or("plain")?;
    assert_eq!(rt; words.second, b"write".as_slice());
    assert_eq!(rt; words.fourth, b"#~!".as_slice());
    assert_eq!(rt; words.count, 6);
    Ok(())
}

#[test]
fn reads_the_words_of_a_setup_line(rt: HostRuntime) -> Result<(), Fail> {
    let words = cut_line(b"fault table 3 applied").ok_or("plain")?;
    assert!(rt; setup_form(words.first) == Some(SetupForm::Fault));
    assert_eq!(rt; SetupForm::Fault.words(), words.count);
    assert!(rt; store_at(words.second) == Ok(Store::Table));
    assert!(rt; number_at(1, 1_000_000, words.third) == Ok(3));
    assert!(rt; kind_at(words.fourth) == Ok(Fate::FailsApplied));
    let node = NodeNo::new(1).ok_or("node")?;
    assert!(rt; node_at(&Setup::default(), b"b") == Ok(node));
    assert!(rt; setup_form(b"take").is_none());
    Ok(())
}

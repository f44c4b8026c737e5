// The parts that items share. Each adds its text at the end of the line.
ghost use Rattle.std.specs.Prelude.{◌≡◌, ◌+◌, ◌≤◌, ◌++◌, length, decimal};
ghost use Rattle.history_text.specs.Words.{node_text, session_text, key_text, actor_text, stage_text, store_text};
ghost use Rattle.stamp_base.specs.Ranges.{IsKey, IsNode, IsSession};
ghost use Rattle.history_text.specs.Fits.{FitsActor};

use crate::line::LineBuf;
use history_book::Actor;
use stamp_base::{KeyNo, NodeNo, SessionNo, Stage, Store};

/// A name and its number, as one text.
pub fn print_one(name: &[u8], number: u64, line: &mut LineBuf)
    requires { length line.old + length name.now + 20 ≤ 256 }
    ensures text { line.new ≡ line.old ++ (name.now ++ decimal number) }
    ensures len { length line.new ≤ length line.old + length name.now + 20 }
{
    line.push_field(name, number);
}

/// Two names and their numbers, as one text.
pub fn print_two(name: &[u8], number: u64, next_name: &[u8], next: u64, line: &mut LineBuf)
    requires { length line.old + length name.now + length next_name.now + 40 ≤ 256 }
    ensures text { line.new ≡ line.old ++ (name.now ++ decimal number ++ next_name.now ++ decimal next) }
    ensures len { length line.new ≤ length line.old + length name.now + length next_name.now + 40 }
{
    line.push_field(name, number);
    line.push_field(next_name, next);
}

/// Adds the node's letter.
pub fn push_node(node: NodeNo, line: &mut LineBuf)
    requires { length line.old + 1 ≤ 256 }
    ensures text { line.new ≡ line.old ++ node_text node }
    ensures fits { IsNode node }
    ensures len { length line.new ≡ length line.old + 1 }
{
    line.push_text(&[b'a' + node.value() as u8]);
}

/// Adds the session's name, of three bytes at most.
pub fn push_session(session: SessionNo, line: &mut LineBuf)
    requires { length line.old + 21 ≤ 256 }
    ensures text { line.new ≡ line.old ++ session_text session }
    ensures fits { IsSession session }
    ensures len { length line.new ≤ length line.old + 3 }
{
    print_one(b"s", session.value(), line);
}

/// Adds the key's name, of five bytes at most.
pub fn push_key(key: KeyNo, line: &mut LineBuf)
    requires { length line.old + 21 ≤ 256 }
    ensures text { line.new ≡ line.old ++ key_text key }
    ensures fits { IsKey key }
    ensures len { length line.new ≤ length line.old + 5 }
{
    print_one(b"k", key.value(), line);
}

/// Adds the actor's name.
pub fn push_actor(actor: Actor, line: &mut LineBuf)
    requires { length line.old + 21 ≤ 256 }
    ensures text { line.new ≡ line.old ++ actor_text actor }
    ensures fits { FitsActor actor }
    ensures len { length line.new ≤ length line.old + 7 }
{
    match actor {
        Actor::Clock => line.push_text(b"clock"),
        Actor::Node(node) => push_node(node, line),
        Actor::Session(session) => push_session(session, line),
        Actor::Janitor => line.push_text(b"janitor"),
    }
}

/// Adds the stage's name.
pub fn push_stage(stage: Stage, line: &mut LineBuf)
    requires { length line.old + 7 ≤ 256 }
    ensures text { line.new ≡ line.old ++ stage_text stage }
    ensures len { length line.new ≤ length line.old + 7 }
{
    match stage {
        Stage::Request => line.push_text(b"request"),
        Stage::Persist => line.push_text(b"persist"),
        Stage::Reply => line.push_text(b"reply"),
    }
}

/// Adds the store's name.
pub fn push_store(store: Store, line: &mut LineBuf)
    requires { length line.old + 6 ≤ 256 }
    ensures text { line.new ≡ line.old ++ store_text store }
    ensures len { length line.new ≤ length line.old + 6 }
{
    match store {
        Store::Cells => line.push_text(b"cells"),
        Store::Table => line.push_text(b"table"),
        Store::Master => line.push_text(b"master"),
    }
}

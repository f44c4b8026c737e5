// The storm: a script of many transactions in four sessions, with takeovers.
ghost use Rattle.std.specs.Prelude.{◌≡◌, ◌+◌, ◌-◌, ◌*◌, ◌%◌, ◌<◌, ◌≤◌, ◌++◌, [], map, length, vec_len, IfOk, OnOk, codes, decimal};
ghost use Rattle.std.specs.List.{flat_map, range_with_len};
ghost use Rattle.stamp_base.specs.Ranges.{IsWithin};
ghost use Rattle.stamp_base.specs.declared.limits.TheConstants.{LINE_LIMIT};
ghost use Rattle.script_data.specs.declared.line.Target.TheVariants as target;
ghost use Rattle.script_data.specs.declared.line.Verb.TheVariants.{Begin, Commit, Read, Write};
ghost use Rattle.session_script.specs.Script.{data_of};
ghost use Rattle.replay_driver.specs.Drafts.{Adds};
ghost use Rattle.replay_driver.specs.Storm.{storm_data, storm_actions, group_actions, works, commits, serving, session_for, standing_by, renewal, takeover, takeover_behind};

use crate::draft::Draft;
use history_book::Actor;
use history_text::LineBuf;
use session_script::{Script, Target, Verb};
use stamp_base::{KeyNo, NoMemory, NodeNo, SessionNo, Setup, Value};
use std::alloc::Global;

/// The most transactions that a storm has.
pub const STORM_LIMIT: u64 = 20_000;

/// How many transactions run side by side.
const GROUP: u64 = 4;

/// Behind how many groups the nodes change places.
const GROUPS_OF_A_NODE: u64 = 50;

/// How many keys there are.
const KEYS: u64 = 31;

/// How long the clock ticks while a node takes over.
const PAUSE: u64 = 12;

/// The script of a storm of so many transactions. NoMemory where memory is refused.
pub fn storm_script(alloc: Global, transactions: u64) -> Result<Script, NoMemory>
    requires { IsWithin 1 20000 transactions }
    ensures script { IfOk result (λ script. data_of script ≡ storm_data transactions) }
    ensures few { IfOk result (λ script. vec_len script.lines ≤ LINE_LIMIT) }
{
    let leads = vec![in alloc; 0, 0]?;
    let draft = storm_draft(alloc, transactions)?;
    Ok(Script {
        setup: Setup::default(),
        leads,
        faults: Vec::new(alloc),
        lines: draft.lines,
    })
}

/// The storm's lines.
fn storm_draft(alloc: Global, transactions: u64) -> Result<Draft, NoMemory>
    requires { IsWithin 1 20000 transactions }
    ensures lines { IfOk result (λ draft. Adds [] draft.lines.items (storm_actions transactions)) }
    ensures few { IfOk result (λ draft. length draft.lines.items ≤ LINE_LIMIT) }
{
    let mut draft = Draft::new(alloc);
    draft.add(Actor::Node(serving(0)), Verb::Take)?;
    for group in 0..transactions.div_ceil(GROUP) {
        add_group(&mut draft, transactions, group)?;
    }
    Ok(draft)
}

/// Adds the lines of a group, 21 at most.
fn add_group(draft: &mut Draft, transactions: u64, group: u64) -> Result<(), NoMemory>
    requires most { transactions ≤ 20000 }
    requires group { 4 * group < transactions }
    requires room { length draft.old.lines.items + 21 ≤ LINE_LIMIT }
    ensures lines { OnOk result (Adds draft.old.lines.items draft.new.lines.items (group_actions transactions group)) }
    ensures few { OnOk result (length draft.new.lines.items ≤ length draft.old.lines.items + 21) }
{
    let node = serving(group);
    let first = GROUP * group;
    let end = transactions.min(first + GROUP);
    add_works(draft, node, first, end)?;
    add_commits(draft, node, first, end)?;
    add_renewal(draft, group)?;
    add_takeover_behind(draft, group)?;
    Ok(())
}

/// Each transaction begins, reads and writes.
fn add_works(draft: &mut Draft, node: NodeNo, first: u64, end: u64) -> Result<(), NoMemory>
    requires node { node < 2 }
    requires most { end ≤ 20000 }
    requires four { (first ≤ end) × (end ≤ first + 4) }
    requires room { length draft.old.lines.items + 12 ≤ LINE_LIMIT }
    ensures lines { OnOk result (Adds draft.old.lines.items draft.new.lines.items (flat_map (works node) (range_with_len first (end - first)))) }
    ensures few { OnOk result (length draft.new.lines.items ≤ length draft.old.lines.items + 12) }
{
    for transaction in first..end {
        add_work(draft, node, transaction)?;
    }
    Ok(())
}

/// The transaction begins, reads a key and writes a key.
fn add_work(draft: &mut Draft, node: NodeNo, transaction: u64) -> Result<(), NoMemory>
    requires node { node < 2 }
    requires most { transaction < 20000 }
    requires room { length draft.old.lines.items + 3 ≤ LINE_LIMIT }
    ensures lines { OnOk result (Adds draft.old.lines.items draft.new.lines.items (works node transaction)) }
    ensures few { OnOk result (length draft.new.lines.items ≡ length draft.old.lines.items + 3) }
{
    draft.add(session_for(transaction), begin(node))?;
    draft.add(session_for(transaction), read(transaction))?;
    draft.add(session_for(transaction), write(transaction))?;
    Ok(())
}

/// Each transaction asks to commit.
fn add_commits(draft: &mut Draft, node: NodeNo, first: u64, end: u64) -> Result<(), NoMemory>
    requires node { node < 2 }
    requires most { end ≤ 20000 }
    requires four { (first ≤ end) × (end ≤ first + 4) }
    requires room { length draft.old.lines.items + 4 ≤ LINE_LIMIT }
    ensures lines { OnOk result (Adds draft.old.lines.items draft.new.lines.items (map (commits node) (range_with_len first (end - first)))) }
    ensures few { OnOk result (length draft.new.lines.items ≤ length draft.old.lines.items + 4) }
{
    for transaction in first..end {
        draft.add(session_for(transaction), commit(node))?;
    }
    Ok(())
}

/// The node that serves renews its lease.
fn add_renewal(draft: &mut Draft, group: u64) -> Result<(), NoMemory>
    requires { length draft.old.lines.items + 2 ≤ LINE_LIMIT }
    ensures lines { OnOk result (Adds draft.old.lines.items draft.new.lines.items (renewal group)) }
    ensures few { OnOk result (length draft.new.lines.items ≡ length draft.old.lines.items + 2) }
{
    draft.add(Actor::Clock, Verb::Tick { by: 1 })?;
    draft.add(Actor::Node(serving(group)), Verb::Renew)?;
    Ok(())
}

/// Behind the last group of its node comes a takeover.
fn add_takeover_behind(draft: &mut Draft, group: u64) -> Result<(), NoMemory>
    requires room { length draft.old.lines.items + 3 ≤ LINE_LIMIT }
    requires few { group < 5000 }
    ensures lines { OnOk result (Adds draft.old.lines.items draft.new.lines.items (takeover_behind group)) }
    ensures few { OnOk result (length draft.new.lines.items ≤ length draft.old.lines.items + 3) }
{
    if (group + 1) % GROUPS_OF_A_NODE == 0 {
        add_takeover(draft, group)
    } else {
        Ok(())
    }
}

/// The node that stands by takes over, and the one that served crashes.
fn add_takeover(draft: &mut Draft, group: u64) -> Result<(), NoMemory>
    requires { length draft.old.lines.items + 3 ≤ LINE_LIMIT }
    ensures lines { OnOk result (Adds draft.old.lines.items draft.new.lines.items (takeover group)) }
    ensures few { OnOk result (length draft.new.lines.items ≡ length draft.old.lines.items + 3) }
{
    draft.add(Actor::Clock, Verb::Tick { by: PAUSE })?;
    draft.add(Actor::Node(standing_by(group)), Verb::Take)?;
    draft.add(Actor::Node(serving(group)), Verb::Crash)?;
    Ok(())
}

/// The node that serves a group.
fn serving(group: u64) -> NodeNo
    ensures value { result ≡ serving group }
    ensures range { result < 2 }
{
    NodeNo::new((group / GROUPS_OF_A_NODE) % 2).unwrap()
}

/// The other node.
fn standing_by(group: u64) -> NodeNo
    ensures value { result ≡ standing_by group }
    ensures range { result < 2 }
{
    NodeNo::new(1 - (group / GROUPS_OF_A_NODE) % 2).unwrap()
}

fn session_for(transaction: u64) -> Actor
    ensures { result ≡ session_for transaction }
{
    Actor::Session(SessionNo::new(transaction % GROUP).unwrap())
}

fn begin(node: NodeNo) -> Verb
    ensures { result ≡ Begin (target.Node node) }
{
    Verb::Begin {
        target: Target::Node(node),
    }
}

fn commit(node: NodeNo) -> Verb
    ensures { result ≡ Commit (target.Node node) }
{
    Verb::Commit {
        target: Target::Node(node),
    }
}

fn read(transaction: u64) -> Verb
    requires { transaction < 20000 }
    ensures { result ≡ Read ((7 * transaction) % 31) }
{
    Verb::Read {
        key: key(7 * transaction),
    }
}

fn write(transaction: u64) -> Verb
    requires { transaction < 20000 }
    ensures { result ≡ Write ((transaction * transaction) % 31) (codes "v" ++ decimal transaction) }
{
    Verb::Write {
        key: key(transaction * transaction),
        value: value_of(transaction),
    }
}

/// One of the storm's keys.
fn key(number: u64) -> KeyNo
    ensures { result ≡ number % 31 }
{
    KeyNo::new(number % KEYS).unwrap()
}

/// What a transaction writes: `v` and its number.
#[tactic(auto, using(crate::proofs::StormValues::is_value))]
fn value_of(transaction: u64) -> Value
    ensures { result ≡ codes "v" ++ decimal transaction }
{
    let mut text = LineBuf::new();
    text.push_field(b"v", transaction);
    Value::new(text.as_slice()).unwrap()
}

//! A bank over `cluster_core`, with no script: four accounts, two tellers, and a takeover in the middle of a transfer.
#![tactic(auto)]

mod bank;
mod failure;

use bank::Bank;
use failure::Failure;
use stamp_base::{KeyNo, NodeNo, SessionNo};
use std::alloc::Global;
use std::process::ExitCode;

fn main(rt: HostRuntime) -> ExitCode {
    match day(&rt, rt.alloc()) {
        Ok(()) => ExitCode::from(0),
        Err(_) => ExitCode::from(1),
    }
}

/// One day of the bank.
fn day(rt: &impl Print, alloc: Global) -> Result<(), Failure> {
    let mut bank = Bank::open(alloc)?;
    let (a, b) = (node(0), node(1));
    let (ann, ben) = (session(0), session(1));
    bank.take(a)?;
    open_accounts(&mut bank, ann, a)?;
    println!(rt; "opened: {}", total(&mut bank, ben, a)?)?;

    bank.begin(ann, a)?;
    bank.transfer(ann, account(0), account(1), 30)?;
    bank.submit(ann, a)?;
    println!(rt; "30 moved: {}", bank.collect(ann, a)?)?;
    println!(rt; "total: {}", total(&mut bank, ben, a)?)?;

    // Ann's next transfer is on its way at the node a when b takes over, and a reader there finds its cells.
    bank.begin(ann, a)?;
    bank.transfer(ann, account(1), account(2), 50)?;
    bank.submit(ann, a)?;
    bank.wait_until(12)?;
    bank.take(b)?;
    println!(rt; "total at the new node: {}", total(&mut bank, ben, b)?)?;
    println!(rt; "50 moved: {}", bank.collect(ann, a)?)?;

    bank.begin(ann, b)?;
    bank.transfer(ann, account(1), account(2), 50)?;
    bank.submit(ann, b)?;
    println!(rt; "50 moved again: {}", bank.collect(ann, b)?)?;
    println!(rt; "total: {}", total(&mut bank, ben, b)?)?;
    println!(rt; "items: {}", bank.items())?;
    Ok(())
}

const ACCOUNTS: u64 = 4;

fn open_accounts(bank: &mut Bank, teller: SessionNo, at: NodeNo) -> Result<(), Failure> {
    bank.begin(teller, at)?;
    for number in 0..ACCOUNTS {
        bank.set(teller, account(number), 100)?;
    }
    bank.submit(teller, at)?;
    bank.collect(teller, at)?;
    Ok(())
}

/// The sum of all balances, as one transaction sees them.
fn total(bank: &mut Bank, teller: SessionNo, at: NodeNo) -> Result<u64, Failure> {
    bank.begin(teller, at)?;
    let mut sum: u64 = 0;
    for number in 0..ACCOUNTS {
        sum = sum.saturating_add(bank.balance(teller, account(number))?);
    }
    bank.submit(teller, at)?;
    Ok(sum)
}

fn account(number: u64) -> KeyNo {
    KeyNo::new(number).unwrap_or(KeyNo::FIRST)
}

fn node(number: u64) -> NodeNo {
    NodeNo::new(number).unwrap_or(NodeNo::FIRST)
}

fn session(number: u64) -> SessionNo {
    SessionNo::new(number).unwrap_or(SessionNo::FIRST)
}

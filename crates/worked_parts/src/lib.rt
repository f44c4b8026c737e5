//! Stores, counters, sessions, step machines and an instance, each call with ample memory. It holds tests alone.
#![tactic(auto)]

#[cfg(test)]
mod buckets;
#[cfg(test)]
mod cells;
#[cfg(test)]
mod compactions;
#[cfg(test)]
mod completions;
#[cfg(test)]
mod leases;
#[cfg(test)]
mod master;
#[cfg(test)]
mod numbers;
#[cfg(test)]
mod ranges;
#[cfg(test)]
mod reads;
#[cfg(test)]
mod requests;
#[cfg(test)]
mod serial;
#[cfg(test)]
mod sessions;
#[cfg(test)]
mod settling;
#[cfg(test)]
mod table;

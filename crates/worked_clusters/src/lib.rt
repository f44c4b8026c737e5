//! The cluster as a library: each event by its method, and a script carried out by one call. It holds tests alone.
#![tactic(auto)]

#[cfg(test)]
mod events;
#[cfg(test)]
mod making;
#[cfg(test)]
mod replays;
#[cfg(test)]
mod texts;

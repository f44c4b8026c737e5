//! The worked examples of the whole program on threads. It holds tests alone.
#![tactic(auto)]

#[cfg(test)]
mod crowd;
#[cfg(test)]
mod refused;
#[cfg(test)]
mod splits;
#[cfg(test)]
mod stretches;
#[cfg(test)]
mod stuck;
#[cfg(test)]
mod threads;

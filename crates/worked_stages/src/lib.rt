//! Pools, rings, queues, stages and the threads of a script, over stand-ins for the board. It holds tests alone.
#![tactic(auto)]

#[cfg(test)]
mod batches;
#[cfg(test)]
mod beacon;
#[cfg(test)]
mod crew;
#[cfg(test)]
mod order;
#[cfg(test)]
mod pipeline;
#[cfg(test)]
mod pools;
#[cfg(test)]
mod queues;
#[cfg(test)]
mod settled;
#[cfg(test)]
mod shares;
#[cfg(test)]
mod tickets;
#[cfg(test)]
mod ticks;

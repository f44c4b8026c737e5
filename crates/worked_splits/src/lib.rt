//! Scripts carried out over split stores, and what tears their logs. It holds tests alone.
#![tactic(auto)]

#[cfg(test)]
mod agreeing;
#[cfg(test)]
mod logs;
#[cfg(test)]
mod making;
#[cfg(test)]
mod meeting;
#[cfg(test)]
mod orders;
#[cfg(test)]
mod places;
#[cfg(test)]
mod reading;
#[cfg(test)]
mod refusing;

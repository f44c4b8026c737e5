//! Numbers, items, histories and scripts, as values and as text. It holds tests alone.
#![tactic(auto)]

#[cfg(test)]
mod book;
#[cfg(test)]
mod json;
#[cfg(test)]
mod lines;
#[cfg(test)]
mod numbers;
#[cfg(test)]
mod outside;
#[cfg(test)]
mod rules;
#[cfg(test)]
mod script_words;
#[cfg(test)]
mod scripts;

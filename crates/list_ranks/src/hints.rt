// Where to look in a trace with lists: whoever uses a hint tests it.
ghost use Rattle.std.specs.Prelude.{◌≡◌, slice_get};

use indexmap::IndexMap;
use std::marker::Model;
use version_ranks::Rank;

/// Who appended a value, which list of a key is the longest, and where a writer of a key stands in the order.
#[derive(Drop)]
pub struct Hints {
    /// The place of the append, by key and value.
    pub homes: IndexMap<(u64, u64), usize>,
    /// The longest list of a committed transaction, by key.
    pub longest: IndexMap<u64, usize>,
    /// The place of a writer's rank, by key and writer.
    pub places: IndexMap<(u64, u64), usize>,
    /// The ranks of writers of keys with lists.
    pub ranks: Vec<Rank>,
    /// What is added to a key's number in these.
    pub above: u64,
    /// The place of an operation's value in its key's longest list, by the operation's place.
    pub spots: Vec<usize>,
    /// The place of an append of the rank's writer, by the rank's place.
    pub witnesses: Vec<usize>,
}

impl Model for Hints {
    ghost use Rattle.list_ranks.specs.Hints as hints;

    ghost Value = { hints.Hints };

    ghost view = { λ h. record { homes = h.homes.entries; longest = h.longest.entries; places = h.places.entries; ranks = h.ranks.items; above = h.above } };
}

impl Hints {
    ghost use Rattle.list_ranks.specs.Hints.{home_of, longest_of, rank_of};

    /// The place of the append of the value.
    pub fn home(&self, key: u64, value: u64) -> Option<usize>
        ensures { result ≡ home_of self.now key value }
    {
        self.homes.get(&(key, value)).copied()
    }

    /// The place of the key's longest list.
    pub fn longest(&self, key: u64) -> Option<usize>
        ensures { result ≡ longest_of self.now key }
    {
        self.longest.get(&key).copied()
    }

    /// The writer's rank at the key.
    pub fn rank(&self, key: u64, txn: usize) -> Option<Rank>
        ensures { result ≡ rank_of self.now key txn }
    {
        match self.places.get(&(key, txn as u64)).copied() {
            None => None,
            Some(place) => self.rank_at(place),
        }
    }

    /// What is added to a key's number in ranks.
    pub fn above(&self) -> u64
        ensures { result ≡ self.now.above }
    {
        self.above
    }

    /// The ranks.
    pub fn ranks(&self) -> &[Rank]
        ensures { result.now ≡ self.now.ranks }
    {
        &self.ranks
    }

    /// The place of the operation's value in its key's longest list. 0 where there is none.
    pub fn spot(&self, place: usize) -> usize {
        self.spots.get(place).copied().unwrap_or(0)
    }

    /// The place of an append of the rank's writer. 0 where there is none.
    pub fn witness(&self, place: usize) -> usize {
        self.witnesses.get(place).copied().unwrap_or(0)
    }

    /// The rank at the place.
    pub fn rank_at(&self, place: usize) -> Option<Rank>
        ensures { result ≡ slice_get self.now.ranks place }
    {
        match self.ranks.get(place) {
            None => None,
            Some(rank) => Some(*rank),
        }
    }
}

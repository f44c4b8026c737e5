// The names of keys, values and processes, by numbers.
ghost use Rattle.std.specs.Prelude.{◌≡◌, [], option_map, slice_get, IfOk, OnOk};

use indexmap::IndexSet;
use stamp_base::NoMemory;
use std::alloc::Global;
use std::marker::Model;

/// Names, each once. A name's number is its place, from 0 on: the order in which the trace tells them first.
#[derive(Drop)]
pub struct Names {
    names: IndexSet<Vec<u8>>,
}

impl Model for Names {
    ghost use Rattle.std.specs.Prelude.{ℕ, List, map};

    ghost Value = { List (List ℕ) };

    ghost view = { λ n. map (λ name. name.items) n.names.keys };
}

impl Names {
    ghost use Rattle.trace_reading.specs.Names.{number_of, names_with};

    /// No names.
    pub fn new(alloc: Global) -> Names
        ensures { result ≡ [] }
    {
        Names {
            names: IndexSet::new(alloc),
        }
    }

    /// The name's number, which it gets where it has none. NoMemory where memory is refused.
    pub fn number_of(&mut self, alloc: Global, name: &[u8]) -> Result<u64, NoMemory>
        ensures number { IfOk result (λ number. number ≡ number_of name.now self.old) }
        ensures names { OnOk result (self.new ≡ names_with name.now self.old) }
    {
        match self.names.get_index_of(name) {
            Some(place) => Ok(place as u64),
            None => self.add(alloc, name),
        }
    }

    /// The name of this number.
    pub fn get(&self, number: u64) -> Option<&[u8]>
        ensures { option_map (λ name. name.now) result ≡ slice_get self.now number }
    {
        match self.names.get_index(number as usize) {
            Some(name) => Some(name.as_slice()),
            None => None,
        }
    }

    /// Adds a name that is not there.
    fn add(&mut self, alloc: Global, name: &[u8]) -> Result<u64, NoMemory>
        ensures number { IfOk result (λ number. number ≡ number_of name.now self.old) }
        ensures names { OnOk result (self.new ≡ names_with name.now self.old) }
    {
        let bytes = name.to_vec(alloc)?;
        let (place, _) = self.names.insert_full(bytes)?;
        Ok(place as u64)
    }
}

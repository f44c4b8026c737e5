// The names that are posted.
ghost use Rattle.std.specs.Prelude.{◌≡◌, ◌<◌, ◌∷◌, ◌++◌, [], false, option_map, IfOk, IfSome, IsOk};
ghost use Rattle.session_script.specs.PostedNames.{is_posted, names_after, posts, with_name, new_name};

use history_book::Note;
use indexmap::IndexSet;
use machine::Event;
use stamp_base::{Name, NoMemory};
use std::alloc::Global;
use std::marker::Model;

/// The names that are posted, each once, in the order in which they were posted, and for how many more there is room.
#[derive(Drop)]
pub struct PostedNames {
    alloc: Global,
    names: IndexSet<Vec<u8>>,
}

impl Model for PostedNames {
    ghost use Rattle.std.specs.Prelude.{map};
    ghost use Rattle.indexmap.specs.IndexSet.{spare};
    ghost use Rattle.session_script.specs.PostedNames.{Posted};

    ghost Value = { Posted };

    ghost view = { λ p. record { names = map (λ name. name.items) p.names.keys; room = spare p.names } };
}

impl PostedNames {
    /// No names.
    pub fn new(alloc: Global) -> PostedNames
        ensures { result.names ≡ [] }
    {
        PostedNames {
            alloc,
            names: IndexSet::new(alloc),
        }
    }

    /// Whether the name is posted.
    pub fn contains(&self, name: &Name) -> bool
        ensures { result ≡ is_posted self.now.names name.now }
    {
        self.names.contains(name.as_slice())
    }

    /// Makes room for the name that the event posts, and gives it. None where it posts no name, or one that is posted. An event
    /// that posts no name takes no memory. NoMemory where memory is refused.
    pub fn make_room(&mut self, event: &Event) -> Result<Option<Vec<u8>>, NoMemory>
        ensures names { self.new.names ≡ self.old.names }
        ensures room { IfOk result (λ name. IfSome name (λ n. 0 < self.new.room)) }
        ensures free { posts event.now ≡ false → IsOk result }
        ensures name { IfOk result (λ name. with_name self.old.names (option_map (λ n. n.items) name) ≡ names_after self.old.names event.now) }
        ensures absent { IfOk result (λ name. IfSome name (λ n. is_posted self.old.names n.items ≡ false)) }
    {
        match event {
            Event::Note {
                note: Note::Post(name),
                ..
            } => self.new_name(name),
            _ => Ok(None),
        }
    }

    fn new_name(&mut self, name: &Name) -> Result<Option<Vec<u8>>, NoMemory>
        ensures names { self.new.names ≡ self.old.names }
        ensures room { IfOk result (λ found. IfSome found (λ n. 0 < self.new.room)) }
        ensures name { IfOk result (λ found. option_map (λ n. n.items) found ≡ new_name self.old.names name.now) }
    {
        if self.contains(name) {
            return Ok(None);
        }
        self.names.reserve(1)?;
        Ok(Some(name.as_slice().to_vec(self.alloc)?))
    }

    /// Adds a name that is not posted, for which there is room.
    pub fn add(&mut self, name: Option<Vec<u8>>)
        requires room { IfSome name (λ n. 0 < self.old.room) }
        requires absent { IfSome name (λ n. is_posted self.old.names n.items ≡ false) }
        ensures { self.new.names ≡ with_name self.old.names (option_map (λ n. n.items) name) }
    {
        if let Some(name) = name {
            self.insert(name);
        }
    }

    fn insert(&mut self, name: Vec<u8>)
        requires room { 0 < self.old.room }
        requires absent { is_posted self.old.names name.items ≡ false }
        ensures { self.new.names ≡ self.old.names ++ name.items ∷ [] }
    {
        match self.names.insert(name) {
            Ok(_) => {}
            Err(_) => unreachable!(),
        }
    }
}

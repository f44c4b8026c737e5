// The names that were posted so far.
ghost use Rattle.std.specs.Prelude.{◌≡◌, ◌++◌, ◌∷◌, [], false, None, OnOk};
ghost use Rattle.std.specs.List.{list_any};
ghost use Rattle.std.specs.Str.{bytes_eq};

use indexmap::IndexSet;
use script_data::Verb;
use stamp_base::Name;
use std::alloc::{AllocError, Global};
use std::marker::Model;

/// The names that were posted, each once. A name's number is the place at which it was posted, from 0 on.
#[derive(Drop)]
pub struct PostedNames {
    names: IndexSet<Vec<u8>>,
}

impl Model for PostedNames {
    ghost use Rattle.std.specs.Prelude.{ℕ, List, map};

    ghost Value = { List (List ℕ) };

    ghost view = { λ p. map (λ name. name.items) p.names.keys };
}

impl PostedNames {
    ghost use Rattle.session_script.specs.Names.{name_objection, posted_after};

    /// No names.
    pub fn new(alloc: Global) -> PostedNames
        ensures { result ≡ [] }
    {
        PostedNames {
            names: IndexSet::new(alloc),
        }
    }

    /// Whether the name was posted.
    pub fn contains(&self, name: &Name) -> bool
        ensures { result ≡ list_any (bytes_eq name.now) self.now }
    {
        self.names.contains(name.as_slice())
    }

    /// Posts a name that was not. AllocError where memory is refused.
    pub fn post(&mut self, alloc: Global, name: &Name) -> Result<(), AllocError>
        requires { list_any (bytes_eq name.now) self.old ≡ false }
        ensures { OnOk result (self.new ≡ self.old ++ name.now ∷ []) }
    {
        let bytes = name.as_slice().to_vec(alloc)?;
        self.names.insert(bytes)?;
        Ok(())
    }

    /// Posts the name that a line of the verb posts, if it does. AllocError where memory is refused.
    pub fn note(&mut self, alloc: Global, verb: &Verb) -> Result<(), AllocError>
        requires { name_objection self.old verb.now ≡ None }
        ensures { OnOk result (self.new ≡ posted_after self.old verb.now) }
    {
        match verb {
            Verb::Post { name } => self.post(alloc, name),
            _ => Ok(()),
        }
    }
}

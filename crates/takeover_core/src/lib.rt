//! The post of a node: the oracle's instance that the node has, or none.
#![tactic(auto)]

ghost use Rattle.std.specs.Prelude.{◌≡◌, MatchResult, None, Some};
ghost use Rattle.takeover_core.specs.Holding.{holding, term_held};

use history_book::Cause;
use oracle_core::Instance;
use stamp_base::Term;
use std::marker::Model;

/// Who serves at a node: nobody, or the instance of the grant that the node took last. It stands alone, so that a node's events
/// need no more of the system than its post.
#[derive(Drop)]
pub struct Post {
    /// The instance that serves. None where nobody does.
    pub instance: Option<Instance>,
}

impl Model for Post {
    ghost use Rattle.std.specs.Prelude.{Option};
    ghost use Rattle.system_parts.specs.Instance.{InstanceEntry};

    ghost Value = { Option InstanceEntry };

    ghost view = { λ p. p.instance };
}

impl Post {
    /// No instance serves here.
    pub fn vacant() -> Post
        ensures { result ≡ None }
    {
        Post { instance: None }
    }

    /// Whether the node may take the record. Refused as Holding exactly where it has an instance, with that term.
    pub fn may_take(&self) -> Result<(), Cause>
        ensures { MatchResult result (λ _. holding self.now ≡ None) (λ cause. holding self.now ≡ Some cause) }
    {
        match self.term_of() {
            None => Ok(()),
            Some(term) => Err(Cause::Holding { term }),
        }
    }

    /// The node has this instance from now on.
    pub fn granted(&mut self, instance: Instance)
        ensures { self.new ≡ Some instance }
    {
        self.instance = Some(instance);
    }

    /// The node has no instance from now on.
    pub fn crashed(&mut self)
        ensures { self.new ≡ None }
    {
        self.instance = None;
    }

    /// The term of the node's instance. None exactly where it has none.
    pub fn term_of(&self) -> Option<Term>
        ensures { result ≡ term_held self.now }
    {
        match &self.instance {
            None => None,
            Some(instance) => Some(instance.term()),
        }
    }
}

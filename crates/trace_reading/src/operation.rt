// An operation of a transaction, read from its array.
ghost use Rattle.std.specs.Prelude.{◌≡◌, Some, None, map, option_map};
ghost use Rattle.serde_json.specs.View.{view, items_view};
ghost use Rattle.trace_reading.specs.Words.{form_of};
ghost use Rattle.std.specs.Str.{bytes_eq};
ghost use Rattle.trace_reading.specs.Steps.{Finds, Takes, Leaves, each_from};
ghost use Rattle.trace_reading.specs.Operations.{form_in, operation_of, answer_of, one_answer, list_of, listed_step, write_of, append_of, operation_step};

use crate::recording::{Recording, whole_or_none};
use crate::want::{Stop, Want};
use serde_json::Value;
use std::alloc::Global;

/// One operation, with its key and values by their numbers.
#[derive(Clone, Copy, Debug, PartialEq, Eq)]
pub enum Operation {
    /// What the key had, with its version where the store tells one. None where it had nothing, or where nobody knows, as before
    /// the read and where the outcome is open.
    Read {
        key: u64,
        answer: Option<u64>,
        version: Option<u64>,
    },
    /// The values that the key had, oldest first: those from place `first` to before `end` of what was listed.
    ReadList {
        key: u64,
        first: u64,
        end: u64,
    },
    /// A value for the key, with its version where the store tells one.
    Write {
        key: u64,
        value: u64,
        version: Option<u64>,
    },
    /// A value behind those that the key has.
    Append {
        key: u64,
        value: u64,
    },
}

/// Which kind of operation it is.
#[derive(Clone, Copy, Debug, PartialEq, Eq)]
pub enum Form {
    /// A key is read.
    Read,
    /// A value is written.
    Write,
    /// A value is appended to a list.
    Append,
}

/// Which kind of operation the value names.
fn form_in(place: u64, value: Option<&Value>) -> Result<Form, Stop>
    ensures { Finds (form_in place (option_map (λ v. view v.now) value.entry)) result }
{
    let Some(word) = value.and_then(Value::as_str) else {
        return Err(Stop::Wants(Want::Function { operation: place }));
    };
    match form_of(word.as_bytes()) {
        Some(form) => Ok(form),
        None => Err(Stop::Wants(Want::Function { operation: place })),
    }
}

/// A read that found nothing.
fn nothing_read(key: u64) -> Operation
    ensures { result ≡ Operation.Read key None None }
{
    Operation::Read {
        key,
        answer: None,
        version: None,
    }
}

fn is_word(bytes: &[u8], word: &[u8]) -> bool
    ensures { result ≡ bytes_eq bytes.now word.now }
{
    bytes == word
}

/// Which kind of operation the word names.
#[tactic(auto, unfolding(crate::specs::Words::form_of))]
fn form_of(word: &[u8]) -> Option<Form>
    ensures { result ≡ form_of word.now }
{
    if is_word(word, b"r") {
        return Some(Form::Read);
    }
    if is_word(word, b"w") {
        return Some(Form::Write);
    }
    if is_word(word, b"append") {
        return Some(Form::Append);
    }
    None
}

impl Recording {
    /// Adds the operation that the value is, at this place of its event.
    pub(crate) fn add_operation(
        &mut self,
        alloc: Global,
        place: u64,
        value: &Value,
    ) -> Result<(), Stop>
        ensures { Leaves (operation_step self.old place (view value.now)) self.new result }
    {
        let form = form_in(place, value.get(0))?;
        let key = self.named(alloc, Want::Key { operation: place }, value.get(1))?;
        let operation = self.operation_of(alloc, form, place, key, value)?;
        self.push_operation(operation)
    }

    /// The operation of this form on the key.
    fn operation_of(
        &mut self,
        alloc: Global,
        form: Form,
        place: u64,
        key: u64,
        value: &Value,
    ) -> Result<Operation, Stop>
        ensures { Takes (operation_of form self.old place key (view value.now)) self.new result }
    {
        match form {
            Form::Read => self.answer_of(alloc, place, key, value.get(2), value.get(3)),
            Form::Write => self.write_of(alloc, place, key, value.get(2), value.get(3)),
            Form::Append => self.append_of(alloc, place, key, value.get(2)),
        }
    }

    /// A read of the key, with its answer.
    fn answer_of(
        &mut self,
        alloc: Global,
        place: u64,
        key: u64,
        answer: Option<&Value>,
        version: Option<&Value>,
    ) -> Result<Operation, Stop>
        ensures { Takes (answer_of self.old place key (option_map (λ v. view v.now) answer.entry) (option_map (λ v. view v.now) version.entry)) self.new result }
    {
        match answer {
            None => Ok(nothing_read(key)),
            Some(value) => self.answer_in(alloc, place, key, value, version),
        }
    }

    fn answer_in(
        &mut self,
        alloc: Global,
        place: u64,
        key: u64,
        value: &Value,
        version: Option<&Value>,
    ) -> Result<Operation, Stop>
        ensures { Takes (answer_of self.old place key (Some (view value.now)) (option_map (λ v. view v.now) version.entry)) self.new result }
    {
        if value.is_null() {
            return Ok(nothing_read(key));
        }
        match value.as_array() {
            Some(listed) => self.list_of(alloc, place, key, listed),
            None => self.one_answer(alloc, place, key, value, version),
        }
    }

    fn one_answer(
        &mut self,
        alloc: Global,
        place: u64,
        key: u64,
        value: &Value,
        version: Option<&Value>,
    ) -> Result<Operation, Stop>
        ensures { Takes (one_answer self.old place key (view value.now) (option_map (λ v. view v.now) version.entry)) self.new result }
    {
        let found = self.named(alloc, Want::Answer { operation: place }, Some(value))?;
        let version = whole_or_none(Want::Version { operation: place }, version)?;
        Ok(Operation::Read {
            key,
            answer: Some(found),
            version,
        })
    }

    /// A read of the key that gave an array.
    #[tactic(auto, using(crate::proofs::EachLemmas::in_order_view))]
    fn list_of(
        &mut self,
        alloc: Global,
        place: u64,
        key: u64,
        values: &[Value],
    ) -> Result<Operation, Stop>
        ensures { Takes (list_of self.old place key (items_view values.now)) self.new result }
    {
        let first = self.listed_len();
        self.add_listed(alloc, place, values)?;
        Ok(Operation::ReadList {
            key,
            first,
            end: self.listed_len(),
        })
    }

    /// Notes the values that a read listed.
    fn add_listed(&mut self, alloc: Global, place: u64, values: &[Value]) -> Result<(), Stop>
        ensures { Leaves (each_from (listed_step place) self.old 0 (map view values.now)) self.new result }
    {
        for member in 0..values.len() {
            self.add_one_listed(alloc, place, member as u64, &values[member])?;
        }
        Ok(())
    }

    fn add_one_listed(
        &mut self,
        alloc: Global,
        place: u64,
        member: u64,
        value: &Value,
    ) -> Result<(), Stop>
        ensures { Leaves (listed_step place self.old member (view value.now)) self.new result }
    {
        let want = Want::Listed {
            operation: place,
            member,
        };
        let found = self.named(alloc, want, Some(value))?;
        self.push_listed(found)
    }

    /// A write of the key.
    fn write_of(
        &mut self,
        alloc: Global,
        place: u64,
        key: u64,
        value: Option<&Value>,
        version: Option<&Value>,
    ) -> Result<Operation, Stop>
        ensures { Takes (write_of self.old place key (option_map (λ v. view v.now) value.entry) (option_map (λ v. view v.now) version.entry)) self.new result }
    {
        let value = self.named(alloc, Want::Written { operation: place }, value)?;
        let version = whole_or_none(Want::Version { operation: place }, version)?;
        Ok(Operation::Write {
            key,
            value,
            version,
        })
    }

    /// An append to the key.
    fn append_of(
        &mut self,
        alloc: Global,
        place: u64,
        key: u64,
        value: Option<&Value>,
    ) -> Result<Operation, Stop>
        ensures { Takes (append_of self.old place key (option_map (λ v. view v.now) value.entry)) self.new result }
    {
        let value = self.named(alloc, Want::Written { operation: place }, value)?;
        Ok(Operation::Append { key, value })
    }
}

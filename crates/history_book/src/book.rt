ghost use Rattle.std.specs.Prelude.{◌≡◌, ◌+◌, ◌-◌, ◌<◌, ◌≤◌, ◌^◌, ◌++◌, ◌∷◌, [], length, vec_len, OnOk, OnErr};
ghost use Rattle.std.specs.Vec.{vec_capacity};

use crate::item::Item;
use stamp_base::NoMemory;
use std::alloc::Global;
use std::marker::Model;

/// A history under way: the items so far, and two rooms for further ones. One is of the event under way, which makes it before
/// it changes anything. The other was reserved for requests, and no event takes it for anything else.
#[derive(Drop)]
pub struct Book {
    items: Vec<Item>,
    room: usize,
    spare: usize,
}

impl Model for Book {
    ghost use Rattle.std.specs.Prelude.{◌+◌, ◌≤◌, vec_len};
    ghost use Rattle.std.specs.Vec.{vec_capacity};
    ghost use Rattle.history_book.specs.Book.{BookContent};

    ghost Value = { BookContent };

    ghost view = { λ b. record { items = b.items.items; room = b.room; spare = b.spare } };

    ghost invariant = { λ b. vec_len b.items + b.room + b.spare ≤ vec_capacity b.items };
}

impl Book {
    /// No items. It takes no memory.
    pub fn new(alloc: Global) -> Book
        ensures items { result.items ≡ [] }
        ensures room { result.room ≡ 0 }
        ensures spare { result.spare ≡ 0 }
    {
        Book {
            items: Vec::new(alloc),
            room: 0,
            spare: 0,
        }
    }

    /// Appends the item in room of its own: what was reserved stays so. NoMemory where memory is refused.
    pub fn append(&mut self, item: Item) -> Result<(), NoMemory>
        ensures ok { OnOk result (self.new.items ≡ self.old.items ++ item ∷ []) }
        ensures kept { self.new.spare ≡ self.old.spare }
        ensures err { OnErr result (self.new ≡ self.old) }
    {
        self.make_room(1)?;
        self.append_in_room(item);
        Ok(())
    }

    /// There is room for n items more, beside what is reserved. NoMemory where memory is refused.
    pub fn make_room(&mut self, n: usize) -> Result<(), NoMemory>
        ensures ok { OnOk result (n ≤ self.new.room) }
        ensures items { self.new.items ≡ self.old.items }
        ensures kept { self.new.spare ≡ self.old.spare }
        ensures err { OnErr result (self.new ≡ self.old) }
    {
        if self.room < n {
            let both = self.spare.checked_add(n).ok_or(NoMemory)?;
            self.items.reserve(both)?;
            self.room = n;
        }
        Ok(())
    }

    /// Appends the item in room that was made. It takes no memory and cannot fail, and what was reserved stays so.
    pub fn append_in_room(&mut self, item: Item)
        requires { 1 ≤ self.old.room }
        ensures items { self.new.items ≡ self.old.items ++ item ∷ [] }
        ensures room { self.new.room ≡ self.old.room - 1 }
        ensures kept { self.new.spare ≡ self.old.spare }
    {
        // What was made is within the capacity.
        push_copy(&mut self.items, &item);
        self.room -= 1;
    }

    /// Reserves room for n items more. NoMemory where memory is refused.
    pub fn reserve(&mut self, n: usize) -> Result<(), NoMemory>
        ensures ok { OnOk result (self.new.spare ≡ self.old.spare + n) }
        ensures kept { self.new.items ≡ self.old.items }
        ensures room { self.new.room ≡ self.old.room }
        ensures err { OnErr result (self.new ≡ self.old) }
    {
        let spare = self.spare.checked_add(n).ok_or(NoMemory)?;
        let both = self.room.checked_add(spare).ok_or(NoMemory)?;
        self.items.reserve(both)?;
        self.spare = spare;
        Ok(())
    }

    /// Appends the item in room that was reserved. It takes no memory and cannot fail.
    pub fn append_reserved(&mut self, item: Item)
        requires { 1 ≤ self.old.spare }
        ensures items { self.new.items ≡ self.old.items ++ item ∷ [] }
        ensures spare { self.new.spare ≡ self.old.spare - 1 }
        ensures room { self.new.room ≡ self.old.room }
    {
        // What is reserved is within the capacity.
        push_copy(&mut self.items, &item);
        self.spare -= 1;
    }

    /// How many items can be appended in room that was reserved.
    pub fn spare(&self) -> usize
        ensures { result ≡ self.now.spare }
    {
        self.spare
    }

    /// The items, in the order in which they were appended.
    pub fn items(&self) -> &[Item]
        ensures value { result.now ≡ self.now.items }
        ensures few { length self.now.items < 2 ^ 63 }
    {
        self.items.as_slice()
    }

    /// The items, without the room for further ones.
    pub fn into_items(self) -> Vec<Item>
        ensures { result.items ≡ self.items }
    {
        self.items
    }
}

/// Adds a copy of the element in room that the list has.
fn push_copy<T: Copy>(list: &mut Vec<T>, element: &T)
    requires { vec_len list.old < vec_capacity list.old }
    ensures items { list.new.items ≡ list.old.items ++ element.now ∷ [] }
    ensures capacity { vec_capacity list.new ≡ vec_capacity list.old }
{
    list.push_reserved(*element);
}

// A list of which the first item can be taken.

ghost use Rattle.std.specs.Prelude.{◌≡◌, ◌↔◌, ◌∷◌, [], IsTrue, IfOk, OnOk};
ghost use Rattle.js_phrase.specs.Queues as spec;

use lava_base::memory::OutOfMemory;
use sqlite_items::Items;
use std::alloc::Global;
use std::marker::Model;

/// Items of which the first can be taken.
#[derive(Drop)]
pub struct Queue<T> {
    reversed: Vec<T>,
}

impl<T> Model for Queue<T> {
    ghost use Rattle.std.specs.Prelude.{List, reverse};

    ghost Value = { List T };

    ghost view = { λ q. reverse q.reversed.items };
}

impl<T> Queue<T> {
    /// No items. It takes no memory.
    pub fn new(alloc: Global) -> Queue<T>
        ensures { result ≡ [] }
    {
        Queue {
            reversed: Vec::new(alloc),
        }
    }

    /// Takes the first item, if there is one.
    pub fn pop(&mut self) -> Option<T>
        ensures first { result ≡ spec.first_of self.old }
        ensures rest { self.new ≡ spec.rest_of self.old }
    {
        self.reversed.pop()
    }

    /// Whether there are no items.
    pub fn is_empty(&self) -> bool
        ensures { IsTrue result ↔ (self.now ≡ []) }
    {
        self.reversed.is_empty()
    }
}

impl<T: Drop> Queue<T> {
    /// Puts an item before the others.
    pub fn push(&mut self, item: T) -> Result<(), OutOfMemory>
        ensures { OnOk result (self.new ≡ item ∷ self.old) }
    {
        self.reversed.push(item)?;
        Ok(())
    }

    /// Drops all items.
    pub fn clear(&mut self)
        ensures { self.new ≡ [] }
    {
        self.reversed.clear();
    }

    /// The items of a list, in their order.
    pub fn of(alloc: Global, mut items: Items<T>) -> Result<Queue<T>, OutOfMemory>
        ensures { IfOk result (λ q. q ≡ items) }
    {
        let mut queue = Queue::new(alloc);
        while let Some(item) = items.pop() {
            queue.push(item)?;
        }
        Ok(queue)
    }
}

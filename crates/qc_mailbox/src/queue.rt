//! Queues that grow only where they are asked to, and ascending numbers in one.

ghost use Rattle.std.specs.Prelude.{◌≡◌, ◌+◌, ◌≤◌, ◌<◌, [], ◌∷◌, ◌++◌, drop, insert, length, slice_get, OnOk};
ghost use Rattle.qc_script.specs.Requests.{with_number};
ghost use Rattle.qc_mailbox.specs.Queues.{items, spare};

use qc_list::OutOfMemory;
use std::alloc::Global;
use std::collections::VecDeque;

/// A queue, the first item first. It takes memory in `reserve` alone: to push
/// needs a spare place.
#[derive(Drop)]
pub struct Queue<T> {
    pub(crate) queue: VecDeque<T>,
}

impl<T: Copy> Queue<T> {
    /// The empty queue, which takes no memory.
    pub(crate) fn new(alloc: Global) -> Queue<T>
        ensures { items result ≡ [] }
    {
        Queue {
            queue: VecDeque::new(alloc),
        }
    }

    /// How many items there are.
    pub(crate) fn len(&self) -> usize
        ensures { result ≡ length (items self.now) }
    {
        self.queue.len()
    }

    /// The first item.
    pub(crate) fn first(&self) -> Option<T>
        ensures { result ≡ slice_get (items self.now) 0 }
    {
        self.queue.front().copied()
    }

    /// Makes so many places spare, if they aren't. The items stay, also after
    /// want of memory.
    pub(crate) fn reserve(&mut self, places: usize) -> Result<(), OutOfMemory>
        ensures same { items self.new ≡ items self.old }
        ensures kept { spare self.old ≤ spare self.new }
        ensures ok { OnOk result (places ≤ spare self.new) }
    {
        self.queue.reserve(places)
    }

    /// Holds these items instead.
    pub(crate) fn refill(&mut self, values: &[T])
        requires { length values.now ≤ spare self.old }
        ensures { items self.new ≡ values.now }
    {
        self.queue.clear();
        for item in values {
            self.queue.push_back_reserved(*item);
        }
    }

    /// Takes all items away.
    pub(crate) fn clear(&mut self)
        ensures items { items self.new ≡ [] }
        ensures spare { spare self.old ≤ spare self.new }
    {
        self.queue.clear();
    }

    /// Adds an item behind the others.
    pub(crate) fn push(&mut self, item: T)
        requires { 0 < spare self.old }
        ensures items { items self.new ≡ items self.old ++ item ∷ [] }
        ensures spare { spare self.old ≤ spare self.new + 1 }
    {
        self.queue.push_back_reserved(item);
    }

    /// Takes the first item away, if there is one.
    pub(crate) fn drop_first(&mut self)
        ensures items { items self.new ≡ drop 1 (items self.old) }
        ensures spare { spare self.old ≤ spare self.new }
    {
        let _ = self.queue.pop_front();
    }

    /// Moves another queue's items behind those of this one.
    pub(crate) fn append(&mut self, other: &mut Queue<T>)
        requires { length (items other.old) ≤ spare self.old }
        ensures items { items self.new ≡ items self.old ++ items other.old }
        ensures spare { spare self.old ≤ spare self.new + length (items other.old) }
        ensures none { items other.new ≡ [] }
        ensures other_spare { spare other.old ≤ spare other.new }
    {
        match self.queue.append(&mut other.queue) {
            Ok(()) => {}
            Err(_) => unreachable!(),
        }
    }

    /// Moves another queue's items before those of this one.
    pub(crate) fn prepend(&mut self, other: &mut Queue<T>)
        requires { length (items other.old) ≤ spare self.old }
        ensures items { items self.new ≡ items other.old ++ items self.old }
        ensures spare { spare self.old ≤ spare self.new + length (items other.old) }
        ensures none { items other.new ≡ [] }
        ensures other_spare { spare other.old ≤ spare other.new }
    {
        'items: while let Some(item) = other.queue.pop_back() {
            self.queue.push_front_reserved(item);
        }
    }
}

impl Queue<u32> {
    /// Adds a number to ascending ones, at its place.
    pub(crate) fn put(&mut self, number: u32)
        requires { 0 < spare self.old }
        ensures items { items self.new ≡ with_number (items self.old) number }
        ensures spare { spare self.old ≤ spare self.new + 1 }
    {
        let place = self.place_of(number);
        match self.queue.insert(place, number) {
            Ok(()) => {}
            Err(_) => unreachable!(),
        }
    }

    /// How many of ascending numbers come before a number.
    fn place_of(&self, number: u32) -> usize
        ensures within { result ≤ length (items self.now) }
        ensures place { insert (items self.now) result number ≡ with_number (items self.now) number }
    {
        let mut place = 0;
        'numbers: while place < self.queue.len() && self.queue[place] <= number {
            place += 1;
        }
        place
    }
}

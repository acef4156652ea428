//! Rounds through variables or clauses in the order of a key, for guides that try the least first.
//!
//! A heap holds pairs of key and item. Where the kernel's journal tells that an item was touched, its pair of now is put in;
//! pairs that no longer hold are dropped when they are met. So nothing is scanned but once, at the start, or where the journal
//! has forgotten.
ghost use Rattle.std.specs.Prelude.{◌≤◌, IfSome};

use crate::ascending::{Ascending, Key};
use q_kernel::{Kernel, Touch};
use q_logic::NoMemory;
use std::marker::PhantomData;

/// What is gone through, and by which key.
pub(crate) trait Keyed: Drop {
    /// The key of an item; None where it is none of those that are gone through.
    fn key_of(kernel: &Kernel, item: u32) -> Option<Key>;

    /// The first number from this one on that may be an item.
    fn next_item(kernel: &Kernel, from: u32) -> Option<u32>
        ensures { IfSome result (λ item. from ≤ item) };

    /// Puts in the items whose keys a touch may have changed.
    fn put_touched(keys: &mut Ascending, kernel: &Kernel, touch: Touch) -> Result<(), NoMemory>;
}

// The items by their keys, and how many touches of the kernel were read.
#[derive(Drop)]
struct Queue<K: Keyed> {
    keys: Ascending,
    read: u64,
    kind: PhantomData<K>,
}

impl<K: Keyed> Queue<K> {
    fn new(kernel: &Kernel) -> Result<Queue<K>, NoMemory> {
        let mut queue = Queue {
            keys: Ascending::new(kernel.allocator()),
            read: 0,
            kind: PhantomData,
        };
        queue.fill(kernel)?;
        Ok(queue)
    }

    // Puts all items in anew.
    fn fill(&mut self, kernel: &Kernel) -> Result<(), NoMemory> {
        self.keys.clear();
        self.read = kernel.touches();
        let mut from = 0;
        while let Some(item) = K::next_item(kernel, from) {
            self.keys.put(K::key_of(kernel, item))?;
            let Some(after) = item.checked_add(1) else {
                return Ok(());
            };
            from = after;
        }
        Ok(())
    }

    // Puts in what was touched since the last call.
    fn catch_up(&mut self, kernel: &Kernel) -> Result<(), NoMemory> {
        for number in self.read..kernel.touches() {
            match kernel.touch(number) {
                Some(touch) => K::put_touched(&mut self.keys, kernel, touch)?,
                None => return self.fill(kernel),
            }
        }
        self.read = kernel.touches();
        Ok(())
    }

    // The item with the least key above the cursor.
    fn next(&mut self, kernel: &Kernel) -> Result<Option<u32>, NoMemory> {
        self.catch_up(kernel)?;
        for _ in 0..self.keys.len() {
            let Some(key) = self.keys.pop() else {
                return Ok(None);
            };
            if K::key_of(kernel, key.1) == Some(key) {
                self.keys.pass(key)?;
                return Ok(Some(key.1));
            }
        }
        Ok(None)
    }
}

/// Goes through all items, the one with the least key first, and starts again once something was taken.
#[derive(Drop)]
pub(crate) struct Rounds<K: Keyed> {
    queue: Option<Queue<K>>,
    starts_again: bool,
}

impl<K: Keyed> Rounds<K> {
    /// It takes no memory.
    pub(crate) fn new() -> Rounds<K> {
        Rounds {
            queue: None,
            starts_again: false,
        }
    }

    /// The next item. Where memory was wanting, all is made anew at the next call.
    pub(crate) fn next(&mut self, kernel: &Kernel) -> Result<Option<u32>, NoMemory> {
        let mut queue = match self.queue.take() {
            Some(queue) => queue,
            None => Queue::new(kernel)?,
        };
        if self.starts_again {
            queue.keys.start_again()?;
            self.starts_again = false;
        }
        let next = queue.next(kernel)?;
        self.queue = Some(queue);
        Ok(next)
    }

    /// Whether what the last item led to was taken.
    pub(crate) fn told(&mut self, taken: bool) {
        self.starts_again = self.starts_again || taken;
    }
}

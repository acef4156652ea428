// A value for each number, in memory where one was put. A formula of two clauses may name the variable 16,777,215; a row in its size
// would take hundreds of megabytes. Smaller numbers have theirs in a plain row, so that a look there costs one comparison.
ghost use Rattle.std.specs.Prelude.{◌≡◌, ◌≢◌, ◌<◌, ◌≤◌, ℕ, [], length, OnOk, OnErr};
ghost use Rattle.q_pages.specs.ByNumber.{value_at, IsPut, AreSameValues};

use crate::pages::Pages;
use q_logic::NoMemory;
use std::alloc::Global;
use std::marker::Model;

// Where the pages begin. Literals have numbers below it up to the variable 524,287.
const NEAR: usize = 1_048_576;

/// A value for each number, and the same one for all to which none was given. It takes memory in proportion to the numbers
/// that were given one, or to the greatest of these below 1,048,576.
#[derive(Drop)]
pub struct ByNumber<T> {
    none: T,
    near: Vec<T>,
    far: Pages<T>,
}

impl<T> Model for ByNumber<T> {
    ghost use Rattle.std.specs.Prelude.{◌≡◌, ◌≤◌, length};
    ghost use Rattle.q_pages.specs.ByNumber.{Values, values_code};

    ghost Value = { Values T };

    ghost coded = { values_code T.code };

    ghost view = { λ v. record { near = v.near.items; far = v.far } };

    ghost invariant = { λ v. (length v.near.items ≤ 1048576) × (v.far.none ≡ v.none) };
}

impl<T: Copy> ByNumber<T> {
    /// No number has a value of its own.
    pub fn new(alloc: Global, none: T) -> ByNumber<T>
        ensures none { result.far.none ≡ none }
        ensures values { (k : ℕ) → value_at result k ≡ none }
    {
        ByNumber {
            none,
            near: Vec::new(alloc),
            far: Pages::new(alloc, none),
        }
    }

    #[inline(always)]
    pub fn get(&self, at: usize) -> T
        ensures { result ≡ value_at self.now at }
    {
        if at < self.near.len() {
            self.near[at]
        } else if at < NEAR {
            self.none
        } else {
            self.far.get(at)
        }
    }

    /// Gives a number a value. It takes no memory where the number was given one before.
    #[inline(always)]
    pub fn put(&mut self, at: usize, value: T) -> Result<(), NoMemory>
        ensures ok { OnOk result (IsPut self.old self.new at value) }
        ensures err { OnErr result (AreSameValues self.old self.new) }
    {
        if at < self.near.len() {
            self.near[at] = value;
            return Ok(());
        }
        self.put_far(at, value)
    }

    // The same for a number that is not in the plain row.
    fn put_far(&mut self, at: usize, value: T) -> Result<(), NoMemory>
        requires beyond { length self.old.near ≤ at }
        ensures ok { OnOk result (IsPut self.old self.new at value) }
        ensures err { OnErr result (AreSameValues self.old self.new) }
    {
        if at < NEAR {
            self.reach(at)?;
            self.near[at] = value;
        } else {
            self.far.grow(at.saturating_add(1))?;
            if at >= self.far.len() {
                return Err(NoMemory);
            }
            self.far.make(at)?;
            self.far.set(at, value);
        }
        Ok(())
    }

    // Takes a number into the plain row, whose length doubles at least, so that numbers that come in order take little time.
    fn reach(&mut self, at: usize) -> Result<(), NoMemory>
        requires near { at < 1048576 }
        requires beyond { length self.old.near ≤ at }
        ensures at { OnOk result (at < length self.new.near) }
        ensures same { AreSameValues self.old self.new }
    {
        let end = (at + 1).max(self.near.len() * 2).min(NEAR);
        self.near.resize(end, self.none)?;
        Ok(())
    }

    /// Takes the value of a number, which was given one, and leaves what stands where none was put.
    pub fn clear(&mut self, at: usize)
        requires { value_at self.old at ≢ self.old.far.none }
        ensures { IsPut self.old self.new at self.old.far.none }
    {
        if at < self.near.len() {
            self.near[at] = self.none;
        } else {
            self.far.blank();
            self.far.set(at, self.none);
        }
    }

    /// No number has a value of its own. The memory of the plain row stays, that of the pages goes.
    pub fn clear_all(&mut self, alloc: Global)
        ensures none { self.new.far.none ≡ self.old.far.none }
        ensures values { (k : ℕ) → value_at self.new k ≡ self.old.far.none }
    {
        self.near.clear();
        self.far = Pages::new(alloc, self.none);
    }
}

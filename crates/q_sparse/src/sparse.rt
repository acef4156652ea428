// A row by number, as a `Vec` is, that touches memory only where something was written. A formula of two clauses may name the variable
// 16,777,215; what is written for each number up to it would take hundreds of megabytes.
//
// Room for all numbers is reserved where the row grows, and costs address space alone. So a write takes no memory of its own, and
// can't fail. Small numbers stand in a plain row, which is filled up to the greatest that was written; so a look there costs one
// comparison. Great ones stand in pages, each behind the one that was made before it.
//
// A row of which most is written is full: its plain row is filled as it grows, and has all numbers. Whoever knows that looks there
// with no comparison.
ghost use Rattle.std.specs.Prelude.{◌≡◌, ◌⊎◌, ◌≤◌, ◌<◌, ◌+◌, ◌*◌, ◌/◌, ℕ, [], length, slice_index, slice_index_or, slice_set, OnOk, OnErr, IsTrue, false, vec_capacity};
ghost use Rattle.q_pages.specs.Tables.{page_of};
ghost use Rattle.q_pages.specs.Layout.{entry, IsSound};
ghost use Rattle.q_sparse.specs.Rows.{item_at};
ghost use Rattle.q_sparse.specs.Fillings.{filling_of, is_most};
ghost use Rattle.q_sparse.specs.Layout.{given};

use q_logic::NoMemory;
use std::alloc::Global;
use std::marker::Model;

// Where pages begin, unless it is said that most numbers are written, or few: with the literals of the variable 1,048,576.
const NEAR: usize = 2_097_152;

// Where they begin if few are written.
const FEW: usize = 65_536;

// So many numbers share a page.
const PAGE: usize = 1_024;

// So many numbers a row may have.
const MOST: usize = 4_294_966_272;

/// How many of a row's numbers will be written. It tells which stand in the plain row, where a look is quick.
#[derive(Clone, Copy)]
pub enum Filling {
    Few,
    Most,
}

/// Few numbers are written where the greatest is more than eight times their count.
pub fn filling_of(count: usize, greatest: usize) -> Filling
    ensures { result ≡ filling_of count greatest }
{
    if greatest / 8 > count {
        Filling::Few
    } else {
        Filling::Most
    }
}

/// A row of values by number. All are one value until they are written.
#[derive(Drop)]
pub struct Sparse<T> {
    none: T,
    len: usize,
    // whether the plain row has all numbers
    full: bool,
    // where the pages begin
    edge: usize,
    near: Vec<T>,
    // for each 1,024 numbers the place of their page, where page 0 has nothing that was written
    pages: Vec<u32>,
    far: Vec<T>,
}

impl<T> Model for Sparse<T> {
    ghost use Rattle.std.specs.Prelude.{vec_capacity};
    ghost use Rattle.q_sparse.specs.Rows.{Row, row_code};
    ghost use Rattle.q_sparse.specs.Layout.{row_of, with_full, IsRow};

    ghost Value = { Row T };

    ghost coded = { row_code T.code };

    ghost view = { λ v. with_full v.full (row_of v.edge v.none v.len v.near.items v.pages.items
        v.far.items) };

    ghost invariant = { λ v. IsRow v.edge v.none v.len v.full v.near.items (vec_capacity v.near)
        v.pages.items v.far.items (vec_capacity v.far) };
}

impl<T: Copy> Sparse<T> {
    /// A row of no number, with what stands where nothing is written.
    pub fn new(alloc: Global, none: T) -> Sparse<T>
        ensures none { result.none ≡ none }
        ensures items { result.items ≡ [] }
        ensures full { result.full ≡ false }
    {
        Sparse::with_edge(alloc, none, NEAR, false)
    }

    /// The same where it is known how many numbers will be written. Where most are, the row is full.
    pub fn filled(alloc: Global, none: T, filling: Filling) -> Sparse<T>
        ensures none { result.none ≡ none }
        ensures items { result.items ≡ [] }
        ensures full { result.full ≡ is_most filling }
    {
        match filling {
            Filling::Few => Sparse::with_edge(alloc, none, FEW, false),
            Filling::Most => Sparse::with_edge(alloc, none, MOST, true),
        }
    }

    fn with_edge(alloc: Global, none: T, edge: usize, full: bool) -> Sparse<T>
        requires { IsTrue full → 4294966272 ≤ edge }
        ensures none { result.none ≡ none }
        ensures items { result.items ≡ [] }
        ensures full { result.full ≡ full }
    {
        Sparse {
            none,
            len: 0,
            full,
            edge,
            near: Vec::new(alloc),
            pages: Vec::new(alloc),
            far: Vec::new(alloc),
        }
    }

    pub fn len(&self) -> usize
        ensures value { result ≡ length self.now.items }
        ensures few { result ≤ 4294966272 }
    {
        self.len
    }

    /// Whether all numbers stand in the plain row.
    #[inline(always)]
    pub fn is_full(&self) -> bool
        ensures { result ≡ self.now.full }
    {
        self.full
    }

    /// The value at a number of a full row.
    #[inline(always)]
    pub fn get_full(&self, at: usize) -> T
        requires full { IsTrue self.now.full }
        requires at { at < length self.now.items }
        ensures { result ≡ item_at self.now at }
    {
        self.near[at]
    }

    /// Puts a value at a number of a full row.
    #[inline(always)]
    pub fn set_full(&mut self, at: usize, value: T)
        requires full { IsTrue self.old.full }
        requires at { at < length self.old.items }
        ensures items { self.new.items ≡ slice_set self.old.items at value }
        ensures none { self.new.none ≡ self.old.none }
        ensures full { self.new.full ≡ self.old.full }
    {
        self.near[at] = value;
    }

    /// The value at a number, also past the end.
    #[inline(always)]
    pub fn get(&self, at: usize) -> T
        ensures { result ≡ item_at self.now at }
    {
        if at < self.near.len() {
            self.near[at]
        } else {
            self.get_beyond(at)
        }
    }

    /// The same for a larger value, of which little is read.
    #[inline(always)]
    pub fn look(&self, at: usize) -> &T
        ensures { result.now ≡ item_at self.now at }
    {
        if at < self.near.len() {
            &self.near[at]
        } else {
            self.look_beyond(at)
        }
    }

    // The value where the number is seldom in the plain row. It is a call of its own, so that a look stays small in its callers.
    #[cold]
    #[inline(never)]
    fn get_beyond(&self, at: usize) -> T
        ensures { result ≡ item_at self.now at }
    {
        *self.look_beyond(at)
    }

    #[cold]
    #[inline(never)]
    fn look_beyond(&self, at: usize) -> &T
        ensures { result.now ≡ item_at self.now at }
    {
        if at < self.edge {
            return near_item(&self.near, at, &self.none);
        }
        if at < self.len {
            return far_item(&self.pages, &self.far, at);
        }
        &self.none
    }

    /// Puts a value at a number of the row.
    #[inline(always)]
    pub fn set(&mut self, at: usize, value: T)
        requires { at < length self.old.items }
        ensures items { self.new.items ≡ slice_set self.old.items at value }
        ensures none { self.new.none ≡ self.old.none }
        ensures full { self.new.full ≡ self.old.full }
    {
        if at < self.near.len() {
            self.near[at] = value;
        } else {
            let again = value;
            self.set_first(at, again);
        }
    }

    // The same where the number may not be in the plain row yet, or has none there.
    #[cold]
    #[inline(never)]
    fn set_first(&mut self, at: usize, value: T)
        requires { at < length self.old.items }
        ensures items { self.new.items ≡ slice_set self.old.items at value }
        ensures none { self.new.none ≡ self.old.none }
        ensures full { self.new.full ≡ self.old.full }
    {
        if at < self.edge {
            reach(&mut self.near, self.none, at, self.len.min(self.edge));
            self.near[at] = value;
        } else {
            make_page(&mut self.pages, &mut self.far, self.none, at);
            let place = self.pages[at / PAGE] as usize * PAGE + at % PAGE;
            self.far[place] = value;
        }
    }

    /// Takes in the numbers below an end, of which nothing is written. It reserves all that writes may need.
    pub fn grow(&mut self, len: usize) -> Result<(), NoMemory>
        ensures len { OnOk result (len ≤ length self.new.items) }
        ensures kept { length self.old.items ≤ length self.new.items }
        ensures exact { (length self.new.items ≡ length self.old.items)
            ⊎ (length self.new.items ≡ len) }
        ensures items { (i : ℕ) → item_at self.new i ≡ item_at self.old i }
        ensures none { self.new.none ≡ self.old.none }
        ensures full { self.new.full ≡ self.old.full }
    {
        if len <= self.len {
            return Ok(());
        }
        if len > MOST {
            return Err(NoMemory);
        }
        let end = len.min(self.edge);
        reserve(&mut self.near, end)?;
        let count = pages_for(self.edge, len);
        reserve_pages(&mut self.pages, &mut self.far, self.none, count)?;
        fill_all(&mut self.near, self.none, end, self.full);
        self.len = len;
        Ok(())
    }
}

// How many pages a row of a length has, the plain row's numbers counted.
fn pages_for(edge: usize, len: usize) -> usize
    requires { len ≤ 4294966272 }
    ensures whole { (len ≤ edge) ⊎ (len ≤ 1024 * result) }
    ensures few { result ≤ 4194304 }
{
    if len > edge { len / PAGE + 1 } else { 0 }
}

// The value at a number of the plain row, also past what is filled.
fn near_item<'a, T: Copy>(near: &'a Vec<T>, at: usize, none: &'a T) -> &'a T
    ensures { result.now ≡ slice_index_or near.now.items at none.now }
{
    match near.get(at) {
        Some(item) => item,
        None => none,
    }
}

// The value at a number whose page there is.
fn far_item<'a, T: Copy>(pages: &Vec<u32>, far: &'a Vec<T>, at: usize) -> &'a T
    requires page { at / 1024 < length pages.now.items }
    requires within { page_of pages.now.items at * 1024 + 1024 ≤ length far.now.items }
    ensures { (none : T) → result.now ≡ entry none pages.now.items far.now.items at }
{
    &far[pages[at / PAGE] as usize * PAGE + at % PAGE]
}

// Fills the plain row up to a number at least. Its length doubles, so that numbers that come in order take little time.
fn reach<T: Copy>(near: &mut Vec<T>, none: T, at: usize, most: usize)
    requires at { at < most }
    requires room { most ≤ vec_capacity near.old }
    requires within { length near.old.items ≤ most }
    ensures at { at < length near.new.items }
    ensures kept { length near.old.items ≤ length near.new.items }
    ensures within { length near.new.items ≤ most }
    ensures room { vec_capacity near.old ≤ vec_capacity near.new }
    ensures same { (i : ℕ) → slice_index_or near.new.items i none
        ≡ slice_index_or near.old.items i none }
{
    if at < near.len() {
        return;
    }
    let end = (at + 1).max(near.len().saturating_mul(2)).min(most);
    fill(near, none, end);
}

// Appends a value up to a length for which there is room.
fn fill<T: Copy>(values: &mut Vec<T>, none: T, end: usize)
    requires long { length values.old.items ≤ end }
    requires room { end ≤ vec_capacity values.old }
    ensures end { length values.new.items ≡ end }
    ensures kept { vec_capacity values.old ≤ vec_capacity values.new }
    ensures same { (i : ℕ) → slice_index_or values.new.items i none
        ≡ slice_index_or values.old.items i none }
{
    let _ = values.resize(end, none);
}

// The same where the row is full.
fn fill_all<T: Copy>(values: &mut Vec<T>, none: T, end: usize, full: bool)
    requires long { length values.old.items ≤ end }
    requires room { end ≤ vec_capacity values.old }
    ensures end { IsTrue full → length values.new.items ≡ end }
    ensures within { length values.new.items ≤ end }
    ensures kept { vec_capacity values.old ≤ vec_capacity values.new }
    ensures same { (i : ℕ) → slice_index_or values.new.items i none
        ≡ slice_index_or values.old.items i none }
{
    if full {
        fill(values, none, end);
    }
}

// Takes in pages up to a number, of which none is made.
fn extend(pages: &mut Vec<u32>, end: usize) -> Result<(), NoMemory>
    requires { length pages.old.items ≤ end }
    ensures end { OnOk result (length pages.new.items ≡ end) }
    ensures err { OnErr result (pages.new.items ≡ pages.old.items) }
    ensures same { (k : ℕ) → slice_index_or pages.new.items k 0
        ≡ slice_index_or pages.old.items k 0 }
{
    pages.resize(end, 0)?;
    Ok(())
}

// Gives the page of a number memory, which was reserved.
fn make_page<T: Copy>(pages: &mut Vec<u32>, far: &mut Vec<T>, none: T, at: usize)
    requires page { at / 1024 < length pages.old.items }
    requires sound { IsSound none pages.old.items far.old.items }
    requires long { length far.old.items ≤ 1024 * (given pages.old.items + 1) }
    requires room { 1024 * (length pages.old.items + 1) ≤ vec_capacity far.old }
    ensures made { 0 < page_of pages.new.items at }
    ensures sound { IsSound none pages.new.items far.new.items }
    ensures long { length far.new.items ≤ 1024 * (given pages.new.items + 1) }
    ensures room { vec_capacity far.old ≤ vec_capacity far.new }
    ensures pages { length pages.new.items ≡ length pages.old.items }
    ensures same { (i : ℕ) → entry none pages.new.items far.new.items i
        ≡ entry none pages.old.items far.old.items i }
{
    if pages[at / PAGE] != 0 {
        return;
    }
    let page = far.len() / PAGE;
    fill(far, none, (page + 1) * PAGE);
    pages[at / PAGE] = page as u32;
}

// Room for so many values, without one more.
fn reserve<T>(values: &mut Vec<T>, most: usize) -> Result<(), NoMemory>
    ensures room { OnOk result (most ≤ vec_capacity values.new) }
    ensures kept { vec_capacity values.old ≤ vec_capacity values.new }
    ensures same { values.new.items ≡ values.old.items }
{
    if values.capacity() < most {
        values.reserve(most - values.len())?;
    }
    Ok(())
}

// So many numbers' pages, none of them made, and room for all.
fn reserve_pages<T: Copy>(
    pages: &mut Vec<u32>,
    far: &mut Vec<T>,
    none: T,
    count: usize,
) -> Result<(), NoMemory>
    requires few { count ≤ 4194304 }
    requires sound { IsSound none pages.old.items far.old.items }
    requires long { length far.old.items ≤ 1024 * (given pages.old.items + 1) }
    requires room { 0 < length pages.old.items → 1024 * (length pages.old.items + 1)
        ≤ vec_capacity far.old }
    ensures count { OnOk result (count ≤ length pages.new.items) }
    ensures sound { IsSound none pages.new.items far.new.items }
    ensures long { length far.new.items ≤ 1024 * (given pages.new.items + 1) }
    ensures room { 0 < length pages.new.items → 1024 * (length pages.new.items + 1)
        ≤ vec_capacity far.new }
    ensures pages { length pages.old.items ≤ length pages.new.items }
    ensures same { (i : ℕ) → entry none pages.new.items far.new.items i
        ≡ entry none pages.old.items far.old.items i }
{
    if count <= pages.len() {
        return Ok(());
    }
    reserve(far, (count + 1) * PAGE)?;
    fill(far, none, far.len().max(PAGE));
    extend(pages, count)
}

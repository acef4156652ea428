//! For each literal the clauses that watch it.
ghost use Rattle.std.specs.Prelude.{◌≡◌, ◌<◌, ◌++◌, ◌∷◌, [], ℕ, length, slice_get, slice_index_or, OnOk, OnErr, Some, vec_len, map};
ghost use Rattle.q_logic.specs.Prelude.{Literal, pack};
ghost use Rattle.q_watch.specs.Rows.{row_of, IsPushed, IsRemoved, AreSameRows, IsShorter, AreOthers};

use crate::entry::Entry;
use q_logic::{Lit, NoMemory};
use std::alloc::Global;
use std::marker::Model;

/// For each literal the entries of clauses that watch it.
#[derive(Drop)]
pub struct Rows {
    alloc: Global,
    rows: Vec<Vec<Entry>>,
}

impl Model for Rows {
    ghost use Rattle.std.specs.Prelude.{List, map};
    ghost use Rattle.q_watch.specs.declared.entry.Entry.{Entry};

    ghost Value = { List (List Entry) };

    ghost view = { λ r. map (λ v. v.items) r.rows.items };
}

impl Rows {
    pub fn new(alloc: Global) -> Rows {
        Rows {
            alloc,
            rows: Vec::new(alloc),
        }
    }

    /// Takes all entries out, and keeps their memory.
    pub fn clear(&mut self) {
        for at in 0..self.rows.len() {
            clear_at(&mut self.rows, at);
        }
    }

    pub fn count(&self, lit: Lit) -> usize
        ensures { result ≡ length (row_of self.now lit) }
    {
        count_at(&self.rows, lit.index())
    }

    pub fn at(&self, lit: Lit, i: usize) -> Entry
        requires { i < length (row_of self.now lit) }
        ensures { slice_get (row_of self.now lit) i ≡ Some result }
    {
        entry_at(&self.rows, lit.index(), i)
    }

    pub fn push(&mut self, lit: Lit, entry: Entry) -> Result<(), NoMemory>
        ensures ok { OnOk result (IsPushed self.old self.new lit entry) }
        ensures err { OnErr result (AreSameRows self.old self.new) }
    {
        let at = lit.index();
        if at >= self.rows.len() {
            grow(self.alloc, &mut self.rows, at)?;
        }
        push_at(&mut self.rows, at, entry)
    }

    /// Takes an entry out. The last one of its row comes in its place.
    pub fn remove(&mut self, lit: Lit, i: usize)
        requires { i < length (row_of self.old lit) }
        ensures { IsRemoved self.old self.new lit i }
    {
        remove_at(&mut self.rows, lit.index(), i);
    }
}

fn clear_at(rows: &mut Vec<Vec<Entry>>, at: usize)
    requires { at < vec_len rows.old }
    ensures { vec_len rows.new ≡ vec_len rows.old }
{
    rows[at].clear();
}

fn count_at(rows: &Vec<Vec<Entry>>, at: usize) -> usize
    ensures { result ≡ length (slice_index_or (map (λ v. v.items) rows.now.items) at []) }
{
    match rows.get(at) {
        Some(row) => row.len(),
        None => 0,
    }
}

fn entry_at(rows: &Vec<Vec<Entry>>, at: usize, i: usize) -> Entry
    requires { i < length (slice_index_or (map (λ v. v.items) rows.now.items) at []) }
    ensures { slice_get (slice_index_or (map (λ v. v.items) rows.now.items) at []) i ≡ Some result }
{
    let row = &rows[at];
    row[i]
}

// Empty rows up to a place. It is seldom called for, so it is a call of its own.
#[cold]
#[inline(never)]
fn grow(alloc: Global, rows: &mut Vec<Vec<Entry>>, at: usize) -> Result<(), NoMemory>
    ensures room { OnOk result (at < vec_len rows.new) }
    ensures same { (j : ℕ) → slice_index_or (map (λ v. v.items) rows.new.items) j []
        ≡ slice_index_or (map (λ v. v.items) rows.old.items) j [] }
{
    while rows.len() <= at {
        rows.push(Vec::new(alloc))?;
    }
    Ok(())
}

fn push_at(rows: &mut Vec<Vec<Entry>>, at: usize, entry: Entry) -> Result<(), NoMemory>
    requires { at < vec_len rows.old }
    ensures ok { OnOk result (slice_index_or (map (λ v. v.items) rows.new.items) at []
        ≡ slice_index_or (map (λ v. v.items) rows.old.items) at [] ++ entry ∷ []) }
    ensures err { OnErr result (slice_index_or (map (λ v. v.items) rows.new.items) at []
        ≡ slice_index_or (map (λ v. v.items) rows.old.items) at []) }
    ensures others { AreOthers (map (λ v. v.items) rows.old.items)
        (map (λ v. v.items) rows.new.items) at }
{
    let row = &mut rows[at];
    row.push(entry)?;
    Ok(())
}

fn remove_at(rows: &mut Vec<Vec<Entry>>, at: usize, i: usize)
    requires { i < length (slice_index_or (map (λ v. v.items) rows.old.items) at []) }
    ensures here { IsShorter (slice_index_or (map (λ v. v.items) rows.old.items) at [])
        (slice_index_or (map (λ v. v.items) rows.new.items) at []) i }
    ensures others { AreOthers (map (λ v. v.items) rows.old.items)
        (map (λ v. v.items) rows.new.items) at }
{
    let row = &mut rows[at];
    row.swap_remove(i);
}

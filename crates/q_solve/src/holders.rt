//! Rows of numbers by number.
ghost use Rattle.std.specs.Prelude.{◌≡◌, ◌<◌, ◌≤◌, ◌++◌, ◌∷◌, [], ℕ, map, vec_len, cond, eqb, OnOk};
ghost use Rattle.q_solve.specs.Counting.{row_at};

use q_logic::NoMemory;
use std::alloc::Global;
use std::marker::Model;

/// Rows of numbers; one that was never written is empty.
#[derive(Drop)]
pub struct Holders {
    alloc: Global,
    rows: Vec<Vec<usize>>,
}

impl Model for Holders {
    ghost use Rattle.std.specs.Prelude.{List, ℕ, map};

    ghost Value = { List (List ℕ) };

    ghost view = { λ h. map (λ v. v.items) h.rows.items };
}

impl Holders {
    pub fn new(alloc: Global) -> Holders
        ensures { result ≡ [] }
    {
        Holders {
            alloc,
            rows: Vec::new(alloc),
        }
    }

    pub fn row(&self, at: usize) -> &[usize]
        ensures { result.now ≡ row_at self.now at }
    {
        if at >= self.rows.len() {
            return &[];
        }
        let row = &self.rows[at];
        row
    }

    /// Puts a number at the end of a row.
    pub fn push(&mut self, at: usize, number: usize) -> Result<(), NoMemory>
        requires { at < 18446744073709551615 }
        ensures { OnOk result ((n : ℕ) → row_at self.new n ≡ cond (eqb n at) (row_at self.old n
            ++ number ∷ []) (row_at self.old n)) }
    {
        grow(self.alloc, &mut self.rows, at + 1)?;
        push_at(&mut self.rows, at, number)
    }
}

// Empty rows up to an end.
fn grow(alloc: Global, rows: &mut Vec<Vec<usize>>, end: usize) -> Result<(), NoMemory>
    ensures room { OnOk result (end ≤ vec_len rows.new) }
    ensures same { OnOk result ((n : ℕ) → row_at (map (λ v. v.items) rows.new.items) n
        ≡ row_at (map (λ v. v.items) rows.old.items) n) }
{
    for _ in rows.len()..end {
        rows.push(Vec::new(alloc))?;
    }
    Ok(())
}

fn push_at(rows: &mut Vec<Vec<usize>>, at: usize, number: usize) -> Result<(), NoMemory>
    requires { at < vec_len rows.old }
    ensures { OnOk result ((n : ℕ) → row_at (map (λ v. v.items) rows.new.items) n ≡
        cond (eqb n at) (row_at (map (λ v. v.items) rows.old.items) n ++ number ∷ [])
        (row_at (map (λ v. v.items) rows.old.items) n)) }
{
    let row = &mut rows[at];
    row.push(number)?;
    Ok(())
}

//! Where each variable of a prefix stands: its block's number, and its neighbours.
ghost use Rattle.std.specs.Prelude.{◌≡◌, ◌<◌, ◌≤◌, ◌+◌, ◌^◌, ℕ, List, Bool, true, false, length, None, Some, Option, OnOk, IfOk, slice_get, slice_set, slice_index_or};
ghost use Rattle.q_logic.specs.Prelude.{Distinct, is_exists};
ghost use Rattle.q_logic.specs.declared.formulas.Bound.{Bound as AnyBound};
ghost use Rattle.q_pages.specs.Rows.{IsMade, KeepsPages};
ghost use Rattle.q_judge.specs.Scopes.{AreNumbered, HavePages, next_rank, first_or, last_or, var_of, is_same_binding, binding_at, rank_at, beside};

use crate::binding_row::BindingRow;
use q_logic::{Bound, NoMemory, Quant};
use std::alloc::Global;

/// The number of a variable's block, its quantifier, and its neighbours.
#[derive(Clone, Copy)]
pub struct Binding {
    pub rank: usize,
    pub quant: Quant,
    pub before: Option<u32>,
    pub after: Option<u32>,
}

/// The bindings of a prefix, and how many variables each block has.
#[derive(Drop)]
pub struct Bindings {
    pub bindings: BindingRow,
    pub counts: Vec<usize>,
}

pub fn binding_of(bindings: &BindingRow, var: u32) -> Option<Binding>
    ensures { result ≡ binding_at bindings.now.items var }
{
    bindings.get(var as usize)
}

pub fn rank_of(bindings: &BindingRow, var: u32) -> usize
    ensures { result ≡ rank_at bindings.now.items var }
{
    match binding_of(bindings, var) {
        Some(binding) => binding.rank,
        None => 0,
    }
}

pub fn is_exists(quant: Quant) -> bool
    ensures { result ≡ is_exists quant }
{
    match quant {
        Quant::Exists => true,
        Quant::Forall => false,
    }
}

/// Whether the variables have the same bindings but for their neighbours.
pub fn are_same_bindings(mine: &BindingRow, others: &BindingRow) -> bool
    ensures yes { result ≡ true → (v : ℕ) → is_same_binding (binding_at mine.now.items v)
        (binding_at others.now.items v) ≡ true }
    ensures no { result ≡ false
        → (v : ℕ) × (is_same_binding (binding_at mine.now.items v) (binding_at others.now.items v)
        ≡ false) }
{
    let end = mine.len().max(others.len());
    for var in 0..end {
        if !same_binding(mine.get(var), others.get(var)) {
            return false;
        }
    }
    true
}

fn same_binding(a: Option<Binding>, b: Option<Binding>) -> bool
    ensures { result ≡ is_same_binding a b }
{
    match (a, b) {
        (Some(a), Some(b)) => a.rank == b.rank && is_exists(a.quant) == is_exists(b.quant),
        (None, None) => true,
        _ => false,
    }
}

/// The bindings of a prefix of distinct variables, with its blocks numbered from 0 on.
pub fn bindings_of(alloc: Global, prefix: &[Bound]) -> Result<Bindings, NoMemory>
    requires { Distinct prefix.now }
    ensures { IfOk result (λ s. AreNumbered prefix.now s.bindings.items s.counts.items) }
{
    let mut bindings = BindingRow::new(alloc);
    binding_room(&mut bindings, prefix)?;
    let mut counts = Vec::new(alloc);
    counts.resize(prefix.len(), 0)?;
    binding_all(prefix, &mut bindings, &mut counts);
    Ok(Bindings { bindings, counts })
}

// A place for each variable.
fn binding_room(bindings: &mut BindingRow, prefix: &[Bound]) -> Result<(), NoMemory>
    requires { (v : ℕ) → binding_at bindings.old.items v ≡ None }
    ensures none { (v : ℕ) → binding_at bindings.new.items v ≡ None }
    ensures room { OnOk result (HavePages prefix.now bindings.new) }
{
    for bound in prefix {
        bindings.make_room(bound.var)?;
    }
    Ok(())
}

// Where the numbering of the blocks stands: the last variable, and its block's number.
#[derive(Clone, Copy)]
pub struct Numbering {
    last: Option<Bound>,
    rank: usize,
}

// The number of the next variable's block.
fn rank_after(numbering: Numbering, quant: Quant) -> usize
    requires { numbering.rank < 2 ^ 63 }
    ensures { result ≡ next_rank numbering.last numbering.rank quant }
{
    match numbering.last {
        Some(last) => {
            if is_exists(last.quant) == is_exists(quant) {
                numbering.rank
            } else {
                numbering.rank + 1
            }
        }
        None => numbering.rank,
    }
}

// Numbers the blocks, and scopes each variable.
fn binding_all(prefix: &[Bound], bindings: &mut BindingRow, counts: &mut Vec<usize>)
    requires distinct { Distinct prefix.now }
    requires room { HavePages prefix.now bindings.old }
    requires none { (v : ℕ) → binding_at bindings.old.items v ≡ None }
    requires zeros { (r : ℕ) → slice_index_or counts.old.items r 0 ≡ 0 }
    requires counts { length prefix.now ≤ length counts.old.items }
    ensures { AreNumbered prefix.now bindings.new.items counts.new.items }
{
    let mut numbering = Numbering {
        last: None,
        rank: 0,
    };
    for i in 0..prefix.len() {
        let after = var_at(prefix, i + 1);
        numbering = take_binding(bindings, counts, numbering, prefix[i], after);
    }
}

fn var_at(prefix: &[Bound], at: usize) -> Option<u32>
    ensures { result ≡ var_of (slice_get prefix.now at) }
{
    Some(prefix.get(at)?.var)
}

// Scopes a variable behind the last one.
fn take_binding(
    bindings: &mut BindingRow,
    counts: &mut Vec<usize>,
    numbering: Numbering,
    bound: Bound,
    after: Option<u32>,
) -> Numbering
    requires small { numbering.rank < 2 ^ 63 }
    requires room { IsMade bindings.old bound.var }
    requires counts { next_rank numbering.last numbering.rank bound.quant
        < length counts.old.items }
    requires few { slice_index_or counts.old.items
        (next_rank numbering.last numbering.rank bound.quant) 0 < 2 ^ 63 }
    ensures bindings { bindings.new.items ≡ slice_set bindings.old.items bound.var
        (Some (record {
          rank = next_rank numbering.last numbering.rank bound.quant;
          quant = bound.quant;
          before = var_of numbering.last;
          after = after;
        })) }
    ensures kept { KeepsPages bindings.old bindings.new }
    ensures counts { counts.new.items ≡ slice_set counts.old.items
        (next_rank numbering.last numbering.rank bound.quant) (slice_index_or counts.old.items
        (next_rank numbering.last numbering.rank bound.quant) 0 + 1) }
    ensures numbering { result ≡ record {
      last = Some bound;
      rank = next_rank numbering.last numbering.rank bound.quant;
    } }
{
    let rank = rank_after(numbering, bound.quant);
    let before = match numbering.last {
        Some(last) => Some(last.var),
        None => None,
    };
    let binding = Binding {
        rank,
        quant: bound.quant,
        before,
        after,
    };
    bindings.put(bound.var, Some(binding));
    counts[rank] += 1;
    Numbering {
        last: Some(bound),
        rank,
    }
}

//! Where each variable of a prefix stands, and whose it is.
ghost use Rattle.std.specs.Prelude.{◌≡◌, ◌<◌, length, slice_index_or, IfOk};
ghost use Rattle.q_logic.specs.declared.formulas.Bound.{Bound};
ghost use Rattle.q_logic.specs.Prelude.{is_exists, is_bound, is_existential};
ghost use Rattle.q_logic.specs.Prefixes.{place, Distinct};
ghost use Rattle.q_logic.specs.Exchanging.{exchanged, exchanged_bound, other_quant};
ghost use Rattle.q_resolve.specs.Seats.{AreSeats};

use q_certificate::{Table, look, put};
use q_logic::{Bound, Lit, NoMemory, Quant};
use std::alloc::Global;

/// The place of each variable.
pub fn seats_of(alloc: Global, prefix: &[Bound]) -> Result<Table, NoMemory>
    requires { Distinct prefix.now }
    ensures { IfOk result (λ seats. AreSeats prefix.now seats.items) }
{
    let mut seats = Table::new(alloc);
    for i in 0..prefix.len() {
        put(&mut seats, prefix[i].var, Some(i as u64))?;
    }
    Ok(seats)
}

/// Whether the variable is in the prefix.
pub fn is_known(prefix: &[Bound], seats: &Table, lit: Lit) -> bool
    requires { AreSeats prefix.now seats.now.items }
    ensures { result ≡ is_bound prefix.now lit.var }
{
    match look(seats, lit.var()) {
        None => false,
        Some(_) => true,
    }
}

/// The place of the variable, which is the length of the prefix where it is absent.
pub fn seat(prefix: &[Bound], seats: &Table, lit: Lit) -> u64
    requires { AreSeats prefix.now seats.now.items }
    ensures { result ≡ place prefix.now lit.var }
{
    match look(seats, lit.var()) {
        None => prefix.len() as u64,
        Some(at) => at,
    }
}

fn exists_at(prefix: &[Bound], at: usize) -> bool
    requires { at < length prefix.now }
    ensures { (d : Bound) → result ≡ is_exists (slice_index_or prefix.now at d).quant }
{
    match prefix[at].quant {
        Quant::Exists => true,
        Quant::Forall => false,
    }
}

/// Whether the variable is an existential of the prefix: one of the owner.
pub fn is_owned(prefix: &[Bound], seats: &Table, lit: Lit) -> bool
    requires { AreSeats prefix.now seats.now.items }
    ensures { result ≡ is_existential prefix.now lit.var }
{
    match look(seats, lit.var()) {
        None => false,
        Some(at) => exists_at(prefix, at as usize),
    }
}

fn other(quant: Quant) -> Quant
    ensures { result ≡ other_quant quant }
{
    match quant {
        Quant::Exists => Quant::Forall,
        Quant::Forall => Quant::Exists,
    }
}

fn exchange_one(bound: Bound) -> Bound
    ensures { result ≡ exchanged_bound bound }
{
    Bound {
        quant: other(bound.quant),
        var: bound.var,
    }
}

/// The prefix with its quantifiers exchanged.
pub fn exchange(alloc: Global, prefix: &[Bound]) -> Result<Vec<Bound>, NoMemory>
    ensures { IfOk result (λ made. made.items ≡ exchanged prefix.now) }
{
    let mut made = Vec::new(alloc);
    for at in 0..prefix.len() {
        let bound = exchange_one(prefix[at]);
        made.push(bound)?;
    }
    Ok(made)
}

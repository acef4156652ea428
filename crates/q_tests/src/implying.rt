// What propagation shows over the clauses of a formula.
use crate::row_targets::lit;
use crate::trouble::Trouble;
use q_logic::{Formula, Lit, NoMemory};
use q_prop::Store;
use std::alloc::Global;

/// Whether literals are implied over the clauses of a formula, but for one.
pub(crate) fn implied(alloc: Global, formula: &Formula, asked: &str) -> Result<String, Trouble> {
    let (lits, skip) = parts_of(asked);
    let lits = lits_of(alloc, lits)?;
    let mut store = store_of(alloc, formula)?;
    told(alloc, store.implied(&lits, skip))
}

fn parts_of(asked: &str) -> (&str, Option<usize>) {
    match asked.split_once(" without ") {
        Some((lits, skip)) => (lits, skip.parse::<usize>().ok()),
        None => (asked, None),
    }
}

fn told(alloc: Global, answer: Result<bool, NoMemory>) -> Result<String, Trouble> {
    let word = if answer? { "yes" } else { "no" };
    Ok(String::from_str(alloc, word)?)
}

fn store_of(alloc: Global, formula: &Formula) -> Result<Store, Trouble> {
    let mut store = Store::new(alloc);
    for at in 0..formula.clauses() {
        store.add(formula.clause(at))?;
    }
    Ok(store)
}

fn lits_of(alloc: Global, text: &str) -> Result<Vec<Lit>, Trouble> {
    let mut lits = Vec::new(alloc);
    for word in text.split(' ') {
        match word.parse::<i64>() {
            Ok(number) => lits.push(lit(number)?)?,
            Err(_) => return Err(Trouble::Unreadable("a literal")),
        }
    }
    Ok(lits)
}

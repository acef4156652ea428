//! Labels for the variables that clauses join. Which labels they are is not promised here: they are verified before they
//! are used.
ghost use Rattle.std.specs.Prelude.{◌≡◌};
ghost use Rattle.q_sparse.specs.Rows.{item_at};

use q_kernel::Kernel;
use q_logic::Lit;
use q_sparse::Sparse;

/// The label of a variable, 0 where it has none.
#[inline(always)]
pub fn label_at(labels: &Sparse<u32>, var: u32) -> u32
    ensures { result ≡ item_at labels.now var }
{
    labels.get(var as usize)
}

/// Gives a variable of the row a label.
pub fn put_label(labels: &mut Sparse<u32>, var: u32, label: u32)
    ensures { labels.new.none ≡ labels.old.none }
{
    if (var as usize) < labels.len() {
        labels.set(var as usize, label);
    }
}

// Where the labels lead to from a variable. The way becomes shorter.
fn root_of(labels: &mut Sparse<u32>, var: u32) -> u32
    ensures { labels.new.none ≡ labels.old.none }
{
    let mut at = var;
    for _ in 0..labels.len() {
        let next = label_at(labels, at);
        if next == at {
            return at;
        }
        let further = label_at(labels, next);
        put_label(labels, at, further);
        at = further;
    }
    at
}

// Lets the labels of two variables lead to one place, which is the less of the two.
fn join(labels: &mut Sparse<u32>, a: u32, b: u32)
    ensures { labels.new.none ≡ labels.old.none }
{
    let x = root_of(labels, a);
    let y = root_of(labels, b);
    put_label(labels, x.max(y), x.min(y));
}

// Joins the variables of a clause that have labels.
fn join_clause(labels: &mut Sparse<u32>, clause: &[Lit])
    ensures { labels.new.none ≡ labels.old.none }
{
    let mut last = 0;
    for k in clause {
        let var = k.var();
        if label_at(labels, var) != 0 {
            if last != 0 {
                join(labels, last, var);
            }
            last = var;
        }
    }
}

/// Joins the variables with labels that stand in one clause.
pub fn join_all(labels: &mut Sparse<u32>, kernel: &Kernel)
    ensures { labels.new.none ≡ labels.old.none }
{
    for id in kernel.ids() {
        join_clause(labels, kernel.lits(id));
    }
}

/// Gives each of the variables the label to which its own leads.
pub fn flatten(labels: &mut Sparse<u32>, vars: &[u32])
    ensures { labels.new.none ≡ labels.old.none }
{
    for var in vars {
        let root = root_of(labels, *var);
        put_label(labels, *var, root);
    }
}

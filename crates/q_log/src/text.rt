// The canonical text of a step, appended where there is room for it, and its length, by which room is made before.
ghost use Rattle.std.specs.Prelude.{◌≡◌, ◌≤◌, ◌<◌, ◌+◌, ◌*◌, ◌^◌, ◌++◌, ◌∷◌, length, drop, vec_len, vec_capacity, OnOk, OnErr, IsOk};
ghost use Rattle.q_logic.specs.Prelude.{IsBelow, number_of, ArePairs, without, literals_of};
ghost use Rattle.q_text.specs.Numbers.{number_text};
ghost use Rattle.q_log.specs.Texts.{letter_text, literals_text, head_text, step_text, written, shorter, IsWritable};

use q_logic::{Kind, Lit, NoMemory, Step};
use q_text::{digits, put_number};

/// Appends the canonical text of a step. Where the text has room for it, it takes no memory.
pub fn push_step(text: &mut Vec<u8>, step: &Step) -> Result<(), NoMemory>
    ensures ok { OnOk result (text.new.items ≡ text.old.items ++ step_text step.now) }
    ensures err { OnErr result (text.new.items ≡ text.old.items) }
    ensures room { vec_len text.old + length (step_text step.now) ≤ vec_capacity text.old
        → IsOk result }
    ensures capacity { vec_capacity text.old ≤ vec_capacity text.new }
{
    text.reserve(step_len(step))?;
    write_head(text, step);
    put(text, END);
    Ok(())
}

/// Appends the canonical text of a step without the 0 and LF at its end. It takes no memory.
pub fn write_head(text: &mut Vec<u8>, step: &Step)
    requires { vec_len text.old + length (head_text step.now) ≤ vec_capacity text.old }
    ensures items { text.new.items ≡ text.old.items ++ head_text step.now }
    ensures capacity { vec_capacity text.old ≤ vec_capacity text.new }
{
    put(text, letter(step.kind()));
    put_lits(text, step.lits());
}

/// The length of the canonical text of a step.
pub fn step_len(step: &Step) -> usize
    ensures value { result ≡ length (step_text step.now) }
    ensures bound { result ≤ 16 * (length (literals_of step.now) + 1) }
{
    letter(step.kind()).len() + lits_len(step.lits()) + END.len()
}

/// Appends the canonical text of the step that has the first literal `first` and then the literals
/// of `lits` other than it. It takes no memory.
pub fn write_step(text: &mut Vec<u8>, kind: Kind, first: Option<Lit>, lits: &[Lit])
    requires form { IsWritable kind first lits.now }
    requires room { vec_len text.old + length (step_text (written kind first lits.now))
        ≤ vec_capacity text.old }
    ensures items { text.new.items ≡ text.old.items ++ step_text (written kind first lits.now) }
    ensures capacity { vec_capacity text.old ≤ vec_capacity text.new }
{
    put(text, letter(kind));
    match first {
        Some(first) => put_in_front(text, first, lits),
        None => put_lits(text, lits),
    }
    put(text, END);
}

/// Appends the canonical text of the addition of a clause without one of its literals. The first
/// literal of the step is the least that is left. It takes no memory.
pub fn write_shorter(text: &mut Vec<u8>, lits: &[Lit], out: Lit)
    requires ordered { ArePairs IsBelow lits.now }
    requires room { vec_len text.old + length (step_text (shorter out lits.now))
        ≤ vec_capacity text.old }
    ensures items { text.new.items ≡ text.old.items ++ step_text (shorter out lits.now) }
    ensures capacity { vec_capacity text.old ≤ vec_capacity text.new }
{
    put_others(text, out, lits);
    put(text, END);
}

const END: &[u8] = b"0\n";

fn letter(kind: Kind) -> &'static [u8]
    ensures { result.now ≡ letter_text kind }
{
    match kind {
        Kind::Add => b"",
        Kind::Delete => b"d ",
        Kind::Drop => b"u ",
        Kind::Fresh => b"e ",
        Kind::Remove => b"r ",
    }
}

// Appends bytes for which there is room.
fn put(text: &mut Vec<u8>, bytes: &[u8])
    requires { vec_len text.old + length bytes.now ≤ vec_capacity text.old }
    ensures items { text.new.items ≡ text.old.items ++ bytes.now }
    ensures capacity { vec_capacity text.old ≤ vec_capacity text.new }
{
    let put = text.extend_from_slice(bytes);
    prove!(put.is_ok());
    let _ = put;
}

// Appends the literal's number and a space, where there is room.
fn put_lit(text: &mut Vec<u8>, lit: Lit)
    requires { vec_len text.old + length (number_text (number_of lit)) ≤ vec_capacity text.old }
    ensures items { text.new.items ≡ text.old.items ++ number_text (number_of lit) }
    ensures capacity { vec_capacity text.old ≤ vec_capacity text.new }
{
    let put_digits = put_number(text, i64::from(lit.number()));
    prove!(put_digits.is_ok());
    let _ = put_digits;
    put(text, b" ");
}

// Appends the numbers of the literals, where there is room.
fn put_lits(text: &mut Vec<u8>, lits: &[Lit])
    requires { vec_len text.old + length (literals_text lits.now) ≤ vec_capacity text.old }
    ensures items { text.new.items ≡ text.old.items ++ literals_text lits.now }
    ensures capacity { vec_capacity text.old ≤ vec_capacity text.new }
{
    for lit in lits {
        put_lit(text, *lit);
    }
}

// The same with a literal in front, which is left out later.
fn put_in_front(text: &mut Vec<u8>, first: Lit, lits: &[Lit])
    requires { vec_len text.old + length (literals_text (first ∷ without first lits.now))
        ≤ vec_capacity text.old }
    ensures items { text.new.items ≡ text.old.items ++ literals_text
        (first ∷ without first lits.now) }
    ensures capacity { vec_capacity text.old ≤ vec_capacity text.new }
{
    put_lit(text, first);
    put_others(text, first, lits);
}

// The literals other than one.
fn put_others(text: &mut Vec<u8>, out: Lit, lits: &[Lit])
    requires { vec_len text.old + length (literals_text (without out lits.now))
        ≤ vec_capacity text.old }
    ensures items { text.new.items ≡ text.old.items ++ literals_text (without out lits.now) }
    ensures capacity { vec_capacity text.old ≤ vec_capacity text.new }
{
    for lit in lits {
        if !lit.is(out) {
            put_lit(text, *lit);
        }
    }
}

fn lit_len(lit: Lit) -> usize
    ensures value { result ≡ length (number_text (number_of lit)) }
    ensures bound { result ≤ 12 }
    ensures small { lit.var < 2 ^ 31 }
{
    let _ = lit.var();
    digits(i64::from(lit.number())) + 1
}

// The length of the text of literals, of which those behind the first are in order.
fn lits_len(lits: &[Lit]) -> usize
    requires { ArePairs IsBelow (drop 1 lits.now) }
    ensures value { result ≡ length (literals_text lits.now) }
    ensures bound { result ≤ 12 * length lits.now }
    ensures fits { result ≤ 12 * (2 ^ 32 + 1) }
{
    let mut len = 0;
    for lit in lits {
        len += lit_len(*lit);
    }
    len
}

// The canonical text of a log with hints.
ghost use Rattle.std.specs.Prelude.{◌≡◌, ◌++◌, ◌∷◌, [], pos, OnOk, OnErr};
ghost use Rattle.q_logic.specs.Prelude.{kind_of};
ghost use Rattle.q_text.specs.Numbers.{number_text};
ghost use Rattle.q_text.specs.Texts.{Extends};
ghost use Rattle.q_hinted.specs.Parts.{AreGroups, IsPartOf, groups_numbers, line_numbers, proof_numbers};
ghost use Rattle.q_hinted.specs.Texts.{header_text, hinted_text, plain_text};

use q_log::{step_len, write_head};
use q_logic::{Kind, NoMemory, Proof, ProofKind, Step};
use q_text::put_count;

/// Appends the header of the second profile.
pub fn push_header(text: &mut Vec<u8>) -> Result<(), NoMemory>
    ensures ok { OnOk result (text.new.items ≡ text.old.items ++ header_text) }
    ensures err { OnErr result (text.new.items ≡ text.old.items) }
{
    text.extend_from_slice(b"p qrat 2\n")?;
    Ok(())
}

/// Appends the canonical text of a step with its proof part.
pub fn push_hinted(text: &mut Vec<u8>, step: &Step, proof: &Proof) -> Result<(), NoMemory>
    requires { IsPartOf (kind_of step.now) proof.now }
    ensures ok { OnOk result (text.new.items ≡ text.old.items ++ hinted_text step.now proof.now) }
    ensures err { OnErr result (text.new.items ≡ text.old.items) }
{
    let before = text.len();
    let put = put_line(text, step, proof);
    if put.is_err() {
        text.truncate(before);
    }
    put
}

fn put_line(text: &mut Vec<u8>, step: &Step, proof: &Proof) -> Result<(), NoMemory>
    requires { IsPartOf (kind_of step.now) proof.now }
    ensures ok { OnOk result (text.new.items ≡ text.old.items ++ hinted_text step.now proof.now) }
    ensures err { OnErr result (Extends text.old.items text.new.items) }
{
    text.reserve(step_len(step))?;
    write_head(text, step);
    put_part(text, step.kind(), proof)?;
    text.extend_from_slice(b"0\n")?;
    Ok(())
}

// What stands between the literals of a step and the 0 that ends its line.
fn put_part(text: &mut Vec<u8>, kind: Kind, proof: &Proof) -> Result<(), NoMemory>
    requires { IsPartOf kind proof.now }
    ensures ok { OnOk result (text.new.items ≡ text.old.items ++ plain_text
        (line_numbers kind proof.now)) }
    ensures err { OnErr result (Extends text.old.items text.new.items) }
{
    match kind {
        Kind::Fresh | Kind::Remove => Ok(()),
        Kind::Add => {
            put_plain(text, 0)?;
            put_proof(text, proof)
        }
        Kind::Delete | Kind::Drop => {
            put_plain(text, 0)?;
            put_plain(text, proof.number())?;
            put_proof(text, proof)
        }
    }
}

// The proof without its last 0.
fn put_proof(text: &mut Vec<u8>, proof: &Proof) -> Result<(), NoMemory>
    requires { AreGroups proof.now.kind proof.now.groups }
    ensures ok { OnOk result (text.new.items ≡ text.old.items ++
        plain_text (proof_numbers proof.now.kind proof.now.groups)) }
    ensures err { OnErr result (Extends text.old.items text.new.items) }
{
    match proof.kind() {
        ProofKind::Nothing => Ok(()),
        ProofKind::Implied => {
            put_plain(text, 1)?;
            put_all(text, proof.hints(0))
        }
        ProofKind::Pivot => {
            put_plain(text, 2)?;
            put_groups(text, proof)
        }
        ProofKind::Reach => put_plain(text, 3),
    }
}

fn put_groups(text: &mut Vec<u8>, proof: &Proof) -> Result<(), NoMemory>
    ensures ok { OnOk result (text.new.items ≡ text.old.items ++ plain_text
        (groups_numbers proof.now.groups)) }
    ensures err { OnErr result (Extends text.old.items text.new.items) }
{
    for at in 0..proof.groups() {
        put_group(text, proof.target(at), proof.hints(at))?;
    }
    Ok(())
}

fn put_group(text: &mut Vec<u8>, target: u64, hints: &[u64]) -> Result<(), NoMemory>
    ensures ok { OnOk result (text.new.items ≡ text.old.items ++ plain_text
        (target ∷ (hints.now ++ 0 ∷ []))) }
    ensures err { OnErr result (Extends text.old.items text.new.items) }
{
    put_plain(text, target)?;
    put_all(text, hints)?;
    put_plain(text, 0)
}

// Numbers, with a space behind each.
fn put_all(text: &mut Vec<u8>, numbers: &[u64]) -> Result<(), NoMemory>
    ensures ok { OnOk result (text.new.items ≡ text.old.items ++ plain_text numbers.now) }
    ensures err { OnErr result (Extends text.old.items text.new.items) }
{
    for number in numbers {
        put_plain(text, *number)?;
    }
    Ok(())
}

// A number, and a space behind it.
fn put_plain(text: &mut Vec<u8>, number: u64) -> Result<(), NoMemory>
    ensures ok { OnOk result (text.new.items ≡ text.old.items ++ number_text (pos number)) }
    ensures err { OnErr result (Extends text.old.items text.new.items) }
{
    put_count(text, number as usize)?;
    text.push(b' ')?;
    Ok(())
}

// A literal in one word of 32 bits: the variable doubled, and one more where it is positive, so that codes ascend in literal order.
ghost use Rattle.std.specs.Prelude.{◌≡◌, ◌≤◌, ◌<◌, ◌^◌, ◌↔◌, IsTrue};
ghost use Rattle.q_logic.specs.Literals.{Literal, negation, pack, number_of};

use std::marker::Model;

/// A literal. Its code is twice the variable, and one more where it is positive, so that codes are in
/// literal order: by variable, the negative literal first.
#[derive(Clone, Copy, Debug, PartialEq, Eq, PartialOrd, Ord, Hash)]
pub struct Lit {
    code: u32,
}

impl Model for Lit {
    ghost use Rattle.std.specs.Prelude.{◌≤◌};
    ghost use Rattle.q_logic.specs.Literals.{Literal, pack, unpack};

    ghost Value = { Literal };

    ghost view = { λ l. unpack l.code };

    ghost invariant = { λ l. 2 ≤ l.code };

    ghost inverse = { λ l. record { code = pack l } };
}

impl Lit {
    #[inline(always)]
    pub fn new(var: u32, negative: bool) -> Lit
        requires positive { 1 ≤ var }
        requires small { var < 2 ^ 31 }
        ensures { result ≡ record { var = var; negative = negative } }
    {
        Lit {
            code: 2 * var + u32::from(!negative),
        }
    }

    #[inline(always)]
    pub fn var(&self) -> u32
        ensures value { result ≡ self.now.var }
        ensures positive { 1 ≤ result }
        ensures small { result < 2 ^ 31 }
    {
        self.code / 2
    }

    #[inline(always)]
    pub fn negative(&self) -> bool
        ensures { result ≡ self.now.negative }
    {
        self.code % 2 == 0
    }

    #[inline(always)]
    pub fn negated(&self) -> Lit
        ensures { result ≡ negation self.now }
    {
        Lit {
            code: self.code ^ 1,
        }
    }

    /// The literal as it is written: the variable, with a minus where it is negative.
    pub fn number(&self) -> i32
        ensures { result ≡ number_of self.now }
    {
        if self.negative() {
            -(self.var() as i32)
        } else {
            self.var() as i32
        }
    }

    /// Its place in a row with a place for each literal.
    #[inline(always)]
    pub fn index(&self) -> usize
        ensures { result ≡ pack self.now }
    {
        self.code as usize
    }

    #[inline(always)]
    pub fn is(&self, other: Lit) -> bool
        ensures { IsTrue result ↔ (self.now ≡ other) }
    {
        self.code == other.code
    }
}

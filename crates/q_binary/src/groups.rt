// A number of which some groups of seven bits are read, the lowest first.
ghost use Rattle.std.specs.Prelude.{◌≡◌, ◌<◌, ◌≤◌, ◌+◌, ◌*◌, ◌^◌, [], ◌∷◌, ◌++◌, length, nat_lt, if◌then◌else◌};
ghost use Rattle.q_binary.specs.BinaryProofs.{value as value_spec};

use std::marker::Model;

/// How many groups were read, and the number that they make.
#[derive(Drop)]
pub(crate) struct Groups {
    count: u8,
    number: u32,
}

impl Model for Groups {
    ghost use Rattle.std.specs.Prelude.{◌<◌, ◌≤◌, ◌^◌, ℕ, List};
    ghost use Rattle.q_binary.specs.Reading.{groups_of};

    ghost Value = { List ℕ };

    ghost view = { λ g. groups_of g.count g.number };

    ghost invariant = { λ g. (g.count ≤ 4) × (g.number < 128 ^ g.count) };
}

// What the next group counts for.
fn weight(count: u8) -> u32
    requires { count ≤ 4 }
    ensures { result ≡ 128 ^ count }
{
    match count {
        0 => 1,
        1 => 128,
        2 => 16_384,
        3 => 2_097_152,
        _ => 268_435_456,
    }
}

// A number with one group more, which is not the last one.
fn with_group(count: u8, number: u32, group: u8) -> u32
    requires few { count < 4 }
    requires below { number < 128 ^ count }
    requires small { group < 128 }
    ensures { result ≡ number + group * 128 ^ count }
{
    number + u32::from(group) * weight(count)
}

// A number with its last group.
fn with_last(count: u8, number: u32, last: u8) -> u64
    requires few { count ≤ 4 }
    requires below { number < 128 ^ count }
    requires small { last < 128 }
    ensures { result ≡ number + last * 128 ^ count }
{
    u64::from(number) + u64::from(last) * u64::from(weight(count))
}

impl Groups {
    pub fn none() -> Groups
        ensures { result ≡ [] }
    {
        Groups {
            count: 0,
            number: 0,
        }
    }

    /// Takes one group more, where there is room: a number has at most five, and another one is its last.
    pub fn add(&mut self, group: u8) -> bool
        requires { group < 128 }
        ensures room { result ≡ nat_lt (length self.old) 4 }
        ensures groups { self.new ≡ (if nat_lt (length self.old) 4 then self.old ++ group ∷ [] else self.old) }
    {
        if self.count >= 4 {
            return false;
        }
        self.number = with_group(self.count, self.number, group);
        self.count += 1;
        true
    }

    /// The number, where this is its last group.
    pub fn value(&self, last: u8) -> u64
        requires { last < 128 }
        ensures { result ≡ value_spec (self.now ++ last ∷ []) }
    {
        with_last(self.count, self.number, last)
    }
}

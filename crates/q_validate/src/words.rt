//! Words with a bit for each of the 63 nodes of a subtree of six levels: its root is 1, and below n stand 2n, where the
//! next input is 0, and 2n + 1, where it is 1. So one step on words is a step at all these nodes.
ghost use Rattle.std.specs.Prelude.{◌≡◌, ◌≤◌, ◌<◌, List, Bool, Option, length};
ghost use Rattle.q_validate.specs.Below.{verdict_of};
ghost use Rattle.q_validate.specs.Words.{bit, path_to, Tells};

use crate::below::Below;
use q_logic::Verdict;

/// How many inputs may get a value below the root of a subtree.
pub const DEPTH: usize = 5;

// For each input behind the root, the nodes at which it is 0, and those at which it is 1.
const ZEROS: [u64; 5] = [
    0xffff00ff0f34,
    0xff00ff0f0f3350,
    0xf0f0f0f33335500,
    0x3333333355550000,
    0x5555555500000000,
];

const ONES: [u64; 5] = [
    0xffff0000ff00f0c8,
    0xff00ff00f0f0cca0,
    0xf0f0f0f0ccccaa00,
    0xccccccccaaaa0000,
    0xaaaaaaaa00000000,
];

/// Whether a node is in a word.
pub fn is_set(word: u64, node: u32) -> bool
    requires { node < 64 }
    ensures { result ≡ bit word node }
{
    (word >> node) & 1 == 1
}

/// The node to which a path leads from the root.
pub fn node_at(path: &[bool]) -> u32
    requires { length path.now ≤ 5 }
    ensures small { result < 64 }
    ensures path { path_to result ≡ path.now }
{
    let mut node = 1;
    for value in path {
        node = 2 * node + u32::from(*value);
    }
    node
}

/// What is known of a value: the nodes at which it is 0, and those at which it is 1.
#[derive(Clone, Copy)]
pub struct Known {
    pub zero: u64,
    pub one: u64,
}

impl Known {
    /// What a value says of a node.
    pub fn at(self, node: u32) -> Verdict
        requires { node < 64 }
        ensures { (f : List Bool → Option Bool) → Tells self f
            → result ≡ verdict_of (f (path_to node)) }
    {
        if is_set(self.zero, node) {
            return Verdict::Lost;
        }
        if is_set(self.one, node) {
            return Verdict::Won;
        }
        Verdict::Open
    }
}

impl Below for Known {
    ghost use Rattle.q_validate.specs.Words.{Tells, tells_same};

    ghost Says = { Tells };

    fn value(value: bool) -> Known {
        if value {
            return Known {
                zero: 0,
                one: u64::MAX,
            };
        }
        Known {
            zero: u64::MAX,
            one: 0,
        }
    }

    fn input(place: usize) -> Known {
        if place < DEPTH {
            return Known {
                zero: ZEROS[place],
                one: ONES[place],
            };
        }
        Known { zero: 0, one: 0 }
    }

    fn signed(self, negative: bool) -> Known {
        if negative {
            return Known {
                zero: self.one,
                one: self.zero,
            };
        }
        self
    }

    fn and(self, other: Known) -> Known {
        Known {
            zero: self.zero | other.zero,
            one: self.one & other.one,
        }
    }

    ghost says_same = { tells_same };
}

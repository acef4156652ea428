//! The groups of rules, what any rule is applied to, and how that is called.
ghost use Rattle.std.specs.Prelude.{◌≡◌, ◌<◌};
ghost use Rattle.q_logic.specs.Prelude.{place};
ghost use Rattle.q_sched.specs.Moves.{target_of, rank, rank_of, groups};

use std::fmt;

/// The groups of rules, each a crate, in the order in which they are searched.
#[derive(Clone, Copy, Debug, PartialEq, Eq)]
pub enum Group {
    Reduce,
    Subsume,
    Merge,
    Block,
    Eliminate,
    Expand,
}

/// So many groups there are.
pub const GROUPS: u32 = 6;

impl Group {
    /// The group at a place of the order.
    pub fn at(place: u32) -> Group
        requires { place < groups }
        ensures { rank result ≡ place }
    {
        match place {
            0 => Group::Reduce,
            1 => Group::Subsume,
            2 => Group::Merge,
            3 => Group::Block,
            4 => Group::Eliminate,
            _ => Group::Expand,
        }
    }

    /// The place of the group in the order.
    pub fn rank(self) -> u32
        ensures { result ≡ rank self }
    {
        match self {
            Group::Reduce => 0,
            Group::Subsume => 1,
            Group::Merge => 2,
            Group::Block => 3,
            Group::Eliminate => 4,
            Group::Expand => 5,
        }
    }
}

/// A target of some rule.
#[derive(Clone, Copy, Debug, PartialEq, Eq)]
pub enum Move {
    Reduce(q_reduce::Target),
    Subsume(q_subsume::Target),
    Merge(q_equiv::Target),
    Block(q_blocked::Target),
    Eliminate(q_eliminate::Target),
    Expand(q_expand::Target),
}

/// So many rules there are.
pub const RULES: usize = 12;

/// What each rule takes, by its number.
pub const RULE_NAMES: [&str; RULES] = [
    "tautologies",
    "unit clauses",
    "universal literals reduced",
    "pure literals",
    "clauses subsumed",
    "clauses strengthened",
    "equivalent literals",
    "blocked clauses",
    "blocked universal literals",
    "covered clauses",
    "existentials eliminated",
    "universals expanded",
];

impl Move {
    /// The group of its rule.
    pub fn group(&self) -> Group
        ensures { rank result ≡ rank_of (target_of self.now) }
    {
        match self {
            Move::Reduce(_) => Group::Reduce,
            Move::Subsume(_) => Group::Subsume,
            Move::Merge(_) => Group::Merge,
            Move::Block(_) => Group::Block,
            Move::Eliminate(_) => Group::Eliminate,
            Move::Expand(_) => Group::Expand,
        }
    }

    /// The number of its rule.
    pub fn rule(&self) -> usize
        ensures { result < 12 }
    {
        match self {
            Move::Reduce(q_reduce::Target::Tautology { .. }) => 0,
            Move::Reduce(q_reduce::Target::Unit { .. }) => 1,
            Move::Reduce(q_reduce::Target::Cut { .. }) => 2,
            Move::Reduce(q_reduce::Target::Pure { .. }) => 3,
            Move::Subsume(q_subsume::Target::Subsumed { .. }) => 4,
            Move::Subsume(q_subsume::Target::Strengthen { .. }) => 5,
            Move::Merge(q_equiv::Target::Merge { .. }) => 6,
            Move::Block(q_blocked::Target::Blocked { .. }) => 7,
            Move::Block(q_blocked::Target::BlockedForall { .. }) => 8,
            Move::Block(q_blocked::Target::Cover { .. }) => 9,
            Move::Eliminate(q_eliminate::Target::Eliminate { .. }) => 10,
            Move::Expand(q_expand::Target::Expand { .. }) => 11,
        }
    }

    /// The id of the clause that changes, or the variable: where a search finds the target.
    pub fn place(&self) -> u32
        ensures { result ≡ place (target_of self.now) }
    {
        match self {
            Move::Reduce(q_reduce::Target::Tautology { c }) => *c,
            Move::Reduce(q_reduce::Target::Unit { c }) => *c,
            Move::Reduce(q_reduce::Target::Cut { c, .. }) => *c,
            Move::Reduce(q_reduce::Target::Pure { l }) => l.var(),
            Move::Subsume(q_subsume::Target::Subsumed { d, .. }) => *d,
            Move::Subsume(q_subsume::Target::Strengthen { d, .. }) => *d,
            Move::Merge(q_equiv::Target::Merge { gone, .. }) => gone.var(),
            Move::Block(q_blocked::Target::Blocked { c, .. }) => *c,
            Move::Block(q_blocked::Target::BlockedForall { c, .. }) => *c,
            Move::Block(q_blocked::Target::Cover { c }) => *c,
            Move::Eliminate(q_eliminate::Target::Eliminate { x }) => *x,
            Move::Expand(q_expand::Target::Expand { u }) => *u,
        }
    }
}

/// As rows write it: a word, then ids of clauses, literals or variables, in the order of the fields.
impl fmt::Display for Move {
    fn fmt<W: fmt::Write>(&self, f: &mut fmt::Formatter<W>) -> fmt::Result {
        match self {
            Move::Reduce(target) => show_reduce(f, target),
            Move::Subsume(target) => show_subsume(f, target),
            Move::Merge(q_equiv::Target::Merge { keep, gone }) => {
                write!(f, "merge {} {}", keep.number(), gone.number())
            }
            Move::Block(target) => show_block(f, target),
            Move::Eliminate(q_eliminate::Target::Eliminate { x }) => write!(f, "eliminate {x}"),
            Move::Expand(q_expand::Target::Expand { u }) => write!(f, "expand {u}"),
        }
    }
}

fn show_reduce<W: fmt::Write>(f: &mut fmt::Formatter<W>, target: &q_reduce::Target) -> fmt::Result {
    match target {
        q_reduce::Target::Tautology { c } => write!(f, "tautology {c}"),
        q_reduce::Target::Unit { c } => write!(f, "unit {c}"),
        q_reduce::Target::Cut { c, l } => write!(f, "cut {c} {}", l.number()),
        q_reduce::Target::Pure { l } => write!(f, "pure {}", l.number()),
    }
}

fn show_subsume<W: fmt::Write>(
    f: &mut fmt::Formatter<W>,
    target: &q_subsume::Target,
) -> fmt::Result {
    match target {
        q_subsume::Target::Subsumed { c, d } => write!(f, "subsumed {c} {d}"),
        q_subsume::Target::Strengthen { c, d, l } => {
            write!(f, "strengthen {c} {d} {}", l.number())
        }
    }
}

fn show_block<W: fmt::Write>(f: &mut fmt::Formatter<W>, target: &q_blocked::Target) -> fmt::Result {
    match target {
        q_blocked::Target::Blocked { c, l } => write!(f, "blocked {c} {}", l.number()),
        q_blocked::Target::BlockedForall { c, l } => {
            write!(f, "blocked-forall {c} {}", l.number())
        }
        q_blocked::Target::Cover { c } => write!(f, "cover {c}"),
    }
}

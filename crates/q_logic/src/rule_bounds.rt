// The bounds by which elimination and expansion stay small: the options `--grow` and `--expand`.
ghost use Rattle.std.specs.Prelude.{◌≤◌};

/// How far the rules of simplification may go: by how much an elimination may let the formula grow, and
/// how many variables an expansion may copy. Both are at most 10,000.
#[derive(Clone, Copy, Debug, PartialEq, Eq)]
pub struct Bounds {
    pub grow: u32,
    pub expand: u32,
    pub ghost small_grow: { grow ≤ 10000 },
    pub ghost small_expand: { expand ≤ 10000 },
}

impl Bounds {
    ghost use Rattle.std.specs.Prelude.{◌≡◌};
    ghost use Rattle.q_logic.specs.UsualBounds.{usual};

    /// The bounds of a command without options.
    pub fn usual() -> Bounds
        ensures { result ≡ usual }
    {
        Bounds {
            grow: 0,
            expand: 16,
        }
    }
}

// A part of a check. Several share a log: each makes all steps, and judges those of its own blocks.
ghost use Rattle.std.specs.Prelude.{◌≡◌};
ghost use Rattle.q_command.specs.Parts.{IsWhole, share_of};

// So many steps are one block.
const BLOCK: u64 = 1000;

/// The blocks of one of several, to whom they are dealt in turn: its place among them, from 0 on, and how many others there are.
#[derive(Clone, Copy, Debug, PartialEq, Eq)]
pub struct Part {
    pub index: u32,
    pub others: u32,
}

impl Part {
    /// All blocks.
    pub fn whole() -> Part
        ensures { IsWhole (share_of result) }
    {
        Part {
            index: 0,
            others: 0,
        }
    }

    /// Whether the step of this number, from 0 on, is judged here.
    pub fn judges(&self, step: u64) -> bool
        ensures { result ≡ share_of self.now step }
    {
        let block = step / BLOCK;
        block % (u64::from(self.others) + 1) == u64::from(self.index)
    }
}

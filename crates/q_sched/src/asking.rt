//! One guide is asked.
ghost use Rattle.std.specs.Prelude.{◌≡◌, ◌<◌, IfOk, OnErr, vec_len, reverse};
ghost use Rattle.q_kernel.specs.Prelude.{SameView, IsReady};
ghost use Rattle.q_reduce.specs.Learned.{IsFitFor};
ghost use Rattle.q_logic.specs.Prelude.{Rose};
ghost use Rattle.q_sched.specs.Drives.{AsksOne};
ghost use Rattle.q_sched.specs.Moves.{target_of};
ghost use Rattle.q_sched.specs.Replies.{Replies, Tried};
ghost use Rattle.q_sched.specs.Meanings.{meanings};

use crate::guide::{Guide, Proposal};
use crate::moves::Move;
use crate::searches::Searches;
use q_kernel::{Kernel, Taken};
use q_logic::{Bounds, NoMemory};

// What came of asking a guide.
#[derive(Clone, Copy)]
pub(crate) enum Reply {
    Over,
    Taken,
    Refused,
}

// Takes a target where it applies.
fn follow(
    target: &Move,
    kernel: &mut Kernel,
    searches: &mut Searches,
    bounds: &Bounds,
) -> Result<Reply, NoMemory>
    requires ready { IsReady kernel.old }
    requires fit { IsFitFor kernel.old searches.old }
    ensures reply { IfOk result (λ reply.
        Tried (target_of target.now) bounds.now kernel.old reply kernel.new) }
    ensures err { OnErr result (SameView kernel.old kernel.new) }
    ensures fit { IsFitFor kernel.new searches.new }
{
    match searches.take(kernel, target, bounds)? {
        Taken::Yes => Ok(Reply::Taken),
        Taken::No => Ok(Reply::Refused),
    }
}

// Asks a guide, takes what it proposes where that applies, and tells it.
fn consult(
    guide: &mut Box<dyn Guide>,
    kernel: &mut Kernel,
    searches: &mut Searches,
    bounds: &Bounds,
) -> Result<Reply, NoMemory>
    requires ready { IsReady kernel.old }
    requires fit { IsFitFor kernel.old searches.old }
    ensures rises { Rose (asked guide.old) (asked guide.new) }
    ensures reply { IfOk result (λ reply.
        Replies (last guide.new) (heard guide.new) bounds.now kernel.old reply kernel.new) }
    ensures err { OnErr result (SameView kernel.old kernel.new) }
    ensures fit { IsFitFor kernel.new searches.new }
{
    match guide.propose(kernel) {
        Proposal::Done => Ok(Reply::Over),
        Proposal::NoMemory => Err(NoMemory),
        Proposal::Take(target) => {
            searches.suggest(&target, guide.hint());
            let reply = follow(&target, kernel, searches, bounds)?;
            guide.told(matches!(reply, Reply::Taken));
            Ok(reply)
        }
    }
}

// The same with the last of a list.
pub(crate) fn ask_last(
    waiting: &mut Vec<Box<dyn Guide>>,
    kernel: &mut Kernel,
    searches: &mut Searches,
    bounds: &Bounds,
) -> Result<Reply, NoMemory>
    requires some { 0 < vec_len waiting.old }
    requires ready { IsReady kernel.old }
    requires fit { IsFitFor kernel.old searches.old }
    ensures asks { IfOk result (λ reply.
        AsksOne (meanings (λ b. asked b) (λ b. last b) (λ b. heard b) (reverse waiting.old.items))
        (meanings (λ b. asked b) (λ b. last b) (λ b. heard b) (reverse waiting.new.items)) (λ then.
        Replies then.last then.heard bounds.now kernel.old reply kernel.new)) }
    ensures err { OnErr result (SameView kernel.old kernel.new) }
    ensures err_list { OnErr result
        (AsksOne (meanings (λ b. asked b) (λ b. last b) (λ b. heard b) (reverse waiting.old.items))
        (meanings (λ b. asked b) (λ b. last b) (λ b. heard b) (reverse waiting.new.items)) (λ then.
        Unit {0})) }
    ensures len { vec_len waiting.new ≡ vec_len waiting.old }
    ensures fit { IsFitFor kernel.new searches.new }
{
    let last_place = waiting.len() - 1;
    let reply = consult(&mut waiting[last_place], kernel, searches, bounds)?;
    Ok(reply)
}

//! What a guide looks at, told to a board. Where it is time to stop, the guide is told to give way, so that no long pass is waited
//! for.

use crate::board::Board;
use crate::stopping::Stopping;
use q_guides::{Pass, Watch};
use q_kernel::Kernel;
use std::cell::Cell;
use std::rc::Rc;

// The board is told, and the clock is looked at, after so many looks.
const LOOKS: u32 = 16;

/// Tells it.
#[derive(Drop)]
pub(crate) struct Teller {
    board: Rc<Board>,
    stopping: Rc<Stopping>,
    // what is looked for, and how many looks come before the board is told
    pass: Cell<Option<Pass>>,
    rest: Cell<u32>,
}

impl Teller {
    pub(crate) fn new(board: Rc<Board>, stopping: Rc<Stopping>) -> Teller {
        Teller {
            board,
            stopping,
            pass: Cell::new(None),
            rest: Cell::new(0),
        }
    }

    // Tells the board, and whether to go on. Where it is time no look is passed over from then on.
    #[cold]
    #[inline(never)]
    fn tell(&self, pass: Pass, kernel: &Kernel) -> bool {
        self.board.note_look(Some(pass), kernel);
        self.pass.set(Some(pass));
        let is_time = self.stopping.is_time();
        self.rest.set(if is_time { 0 } else { LOOKS });
        !is_time
    }
}

impl Watch for Teller {
    #[inline]
    fn look(&self, pass: Pass, kernel: &Kernel) -> bool {
        let rest = self.rest.get();
        if rest > 0 && self.pass.get() == Some(pass) {
            self.rest.set(rest - 1);
            return true;
        }
        self.tell(pass, kernel)
    }
}

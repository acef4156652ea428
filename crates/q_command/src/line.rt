// Lines: made on the stack, so none wants memory, and put.
ghost use Rattle.std.specs.Prelude.{◌≡◌, ◌≤◌, ◌+◌, ◌++◌, length, codes, decimal};
ghost use Rattle.q_command.specs.Sinks.{IsSaid, view_sink};

use crate::status::Status;
use arrayvec::ArrayString;
use itoa::Buffer;
use q_io::{DeviceError, Sink};

/// The text of a line, LF included.
pub type Line = ArrayString<96>;

fn push_number(line: &mut Line, number: u64)
    requires { length line.old.bytes + 20 ≤ 96 }
    ensures bytes { line.new.bytes ≡ line.old.bytes ++ decimal number }
    ensures short { length line.new.bytes ≤ length line.old.bytes + 20 }
{
    let mut buffer = Buffer::new();
    line.push_str(buffer.format(number));
}

/// A line of words alone.
pub fn words_line(words: &str) -> Line
    requires { length words.now ≤ 96 }
    ensures { result.bytes ≡ words.now }
{
    let mut line = Line::new();
    line.push_str(words);
    line
}

/// Words, and a number behind them.
pub fn number_line(words: &str, number: u64) -> Line
    requires { length words.now ≤ 32 }
    ensures { result.bytes ≡ words.now ++ decimal number ++ codes "\n" }
{
    let mut line = words_line(words);
    push_number(&mut line, number);
    line.push_str("\n");
    line
}

/// Words with a number behind them, and further words with a number.
pub fn numbers_line(words: &str, number: u64, further: &str, last: u64) -> Line
    requires words { length words.now ≤ 32 }
    requires further { length further.now ≤ 16 }
    ensures { result.bytes ≡ words.now ++ decimal number ++ further.now ++ decimal last
        ++ codes "\n" }
{
    let mut line = words_line(words);
    push_number(&mut line, number);
    line.push_str(further);
    push_number(&mut line, last);
    line.push_str("\n");
    line
}

/// A line of a file, and why it is refused.
pub fn place(words: &str, line: u64, cause: u8) -> Line
    requires { length words.now ≤ 32 }
    ensures { result.bytes ≡ words.now ++ decimal line ++ codes " cause " ++ decimal cause
        ++ codes "\n" }
{
    numbers_line(words, line, " cause ", u64::from(cause))
}

/// Puts a line. The answer is the status that is due, or why the line could not be put.
pub fn put<S: Sink>(out: &mut S, due: Status, line: &[u8]) -> Status
    ensures { IsSaid line.now due result (view_sink S.Sink out.old) (view_sink S.Sink out.new) }
{
    match out.put(line) {
        Ok(()) => due,
        Err(DeviceError::Failed) => Status::WriteFault,
        Err(DeviceError::NoMemory) => Status::NoMemory,
    }
}

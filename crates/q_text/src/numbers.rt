// Numbers as text: decimal digits without leading zeros, as lines and canonical texts have them.
ghost use Rattle.std.specs.Prelude.{◌≡◌, ◌≤◌, ◌+◌, ◌++◌, length, vec_len, vec_capacity, OnOk, OnErr, IsOk};
ghost use Rattle.std.specs.Fmt.{decimal, signed_decimal};

use itoa::Buffer;
use q_logic::NoMemory;

/// Appends the decimal text of a number. Where the text has room for it, it takes no memory.
pub fn put_number(text: &mut Vec<u8>, number: i64) -> Result<(), NoMemory>
    ensures ok { OnOk result (text.new.items ≡ text.old.items ++ signed_decimal number) }
    ensures err { OnErr result (text.new.items ≡ text.old.items) }
    ensures room { vec_len text.old + length (signed_decimal number) ≤ vec_capacity text.old
        → IsOk result }
    ensures capacity { vec_capacity text.old ≤ vec_capacity text.new }
{
    let mut buffer = Buffer::new();
    put(text, buffer.format(number).as_bytes())
}

/// Appends the decimal text of a count, as `put_number` does.
pub fn put_count(text: &mut Vec<u8>, count: usize) -> Result<(), NoMemory>
    ensures ok { OnOk result (text.new.items ≡ text.old.items ++ decimal count) }
    ensures err { OnErr result (text.new.items ≡ text.old.items) }
    ensures room { vec_len text.old + length (decimal count) ≤ vec_capacity text.old → IsOk result }
    ensures capacity { vec_capacity text.old ≤ vec_capacity text.new }
{
    let mut buffer = Buffer::new();
    put(text, buffer.format(count).as_bytes())
}

/// The length of the decimal text of a number.
pub fn digits(number: i64) -> usize
    ensures { result ≡ length (signed_decimal number) }
{
    let mut buffer = Buffer::new();
    buffer.format(number).len()
}

fn put(text: &mut Vec<u8>, bytes: &[u8]) -> Result<(), NoMemory>
    ensures ok { OnOk result (text.new.items ≡ text.old.items ++ bytes.now) }
    ensures err { OnErr result (text.new.items ≡ text.old.items) }
    ensures room { vec_len text.old + length bytes.now ≤ vec_capacity text.old → IsOk result }
    ensures capacity { vec_capacity text.old ≤ vec_capacity text.new }
{
    text.extend_from_slice(bytes)?;
    Ok(())
}

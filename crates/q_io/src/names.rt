// Files in memory: a map from names to bytes, and the two ways to change it.
ghost use Rattle.std.specs.Prelude.{◌≡◌, ◌≤◌, ◌++◌, ◌-◌, length, take, drop, min, OnOk, OnErr, Some};
ghost use Rattle.std.specs.FinMap as map;
ghost use Rattle.q_io.specs.Files.{OthersStay, bytes_at};
ghost use Rattle.q_io.specs.Memory.{disk_of};

use std::alloc::{AllocError, Global};
use std::collections::BTreeMap;

pub(crate) type Names = BTreeMap<String, Vec<u8>>;

// Holds these bytes under the name, in place of what it held.
pub(crate) fn store(
    alloc: Global,
    names: &mut Names,
    name: &str,
    bytes: &[u8],
) -> Result<(), AllocError>
    ensures ok { OnOk result (map.get (disk_of names.new) name.now ≡ Some bytes.now) }
    ensures err { OnErr result (disk_of names.new ≡ disk_of names.old) }
    ensures others { OthersStay name.now (disk_of names.old) (disk_of names.new) }
{
    let key = String::from_str(alloc, name)?;
    let value = Vec::from_slice(alloc, bytes)?;
    names.insert(key, value)?;
    Ok(())
}

// Puts bytes at the name's end.
pub(crate) fn extend(
    alloc: Global,
    names: &mut Names,
    name: &str,
    bytes: &[u8],
) -> Result<(), AllocError>
    ensures ok { OnOk result
        (map.get (disk_of names.new) name.now
        ≡ Some (bytes_at (disk_of names.old) name.now ++ bytes.now)) }
    ensures err { OnErr result
        (map.get (disk_of names.new) name.now ≡ map.get (disk_of names.old) name.now) }
    ensures others { OthersStay name.now (disk_of names.old) (disk_of names.new) }
{
    if !names.contains_key(name) {
        store(alloc, names, name, bytes)?;
        return Ok(());
    }
    match names.get_mut(name) {
        Some(held) => {
            held.extend_from_slice(bytes)?;
            Ok(())
        }
        None => unreachable!(),
    }
}

// Copies bytes from a place on to the front of a buffer, as many as there are and as fit.
pub(crate) fn copy_from(bytes: &[u8], at: u64, buf: &mut [u8]) -> usize
    ensures within { result ≤ length buf.old }
    ensures count { result ≡ min (length buf.old) (length bytes.now - at) }
    ensures copied { take result buf.new ≡ take result (drop at bytes.now) }
{
    if at >= bytes.len() as u64 {
        return 0;
    }
    let rest = &bytes[at as usize..];
    let count = rest.len().min(buf.len());
    buf[..count].copy_from_slice(&rest[..count]);
    count
}

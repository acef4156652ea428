//! Results go into buffers of the caller.
ghost use Rattle.q_io.specs.Files.{bytes_at};
ghost use Rattle.q_c_library.specs.Calls.{Copied};

use q_io::SteadyFiles;

// Copies the bytes to the buffer's front where they fit, and says how many there are.
pub(crate) fn put(bytes: &[u8], buffer: &mut [u8]) -> usize
    ensures { Copied bytes.now buffer.old buffer.new result }
{
    let len = bytes.len();
    if len <= buffer.len() {
        buffer[..len].copy_from_slice(bytes);
    }
    len
}

// The same with the bytes of a file.
pub(crate) fn put_file(files: &SteadyFiles, name: &str, buffer: &mut [u8]) -> usize
    ensures { Copied (bytes_at files.now name.now) buffer.old buffer.new result }
{
    match files.file(name) {
        Some(bytes) => put(bytes, buffer),
        None => put(&[], buffer),
    }
}

// The file that a program is given by name.
ghost use Rattle.std.specs.Prelude.{◌≡◌, Some, pos, IsErrAnd, IsUtf8};
ghost use Rattle.std.specs.IoError.{error_kind, raw_os_error};

use std::fs::File;
use std::io;
use std::io::ErrorKind;
use std::rt::Files;

// The system's number of the error that a name is too long.
const ENAMETOOLONG: i32 = 36;

// The error of a name that has more bytes than any file's name.
pub fn name_too_long() -> io::Error
    ensures { raw_os_error result ≡ Some (pos 36) }
{
    io::Error::from_raw_os_error(ENAMETOOLONG)
}

// Opens the file to read it. A name that is no UTF-8 is refused, whatever file has it.
pub fn open<R: Files>(files: &R, name: &[u8]) -> io::Result<R::File>
    ensures { ¬ (IsUtf8 name.now) → IsErrAnd result (λ e. error_kind e ≡ ErrorKind.InvalidInput) }
{
    let path = str::from_utf8(name).map_err(|_| io::Error::new(
        ErrorKind::InvalidInput,
        "The name is not UTF-8",
    ))?;
    File::open(files, path)
}

// The input of a program, read whole into memory, and what it says of an input that it cannot read.
#![tactic(auto)]

ghost use Rattle.std.specs.Prelude.{◌≡◌, ℕ, length, IfOk, List};
ghost use Rattle.input.specs.Input.{InputWithin};

use std::env::{Env, FillError};
use std::io;
use std::io::Read;
use std::rt::Files;

mod failure;
mod file;

pub use failure::fail;
pub use file::{name_too_long, open};

// One byte more than the longest schedule has, so that a longer one is known.
const TEXT_BYTES: usize = 65537;

// Reads until the memory is full, the input ends or a read fails, and answers how many bytes were read.
pub fn read_all<R: Read>(from: &mut R, text: &mut [u8]) -> io::Result<usize>
    ensures { InputWithin result (length text.new) }
{
    let mut n = 0;
    while n < text.len() {
        match from.read(&mut text[n..])? {
            0 => break,
            more => n += more,
        }
    }
    Ok(n)
}

// Runs the schedule that the reader gives, or says that it cannot be read: the name is for that line.
pub fn run_input<R: Read, F: FnOnce(&[u8])>(errors: &impl Print, from: &mut R, name: &[u8], run: F)
    requires { F.IsAlwaysCallable run }
{
    let mut text = [0u8; TEXT_BYTES];
    match read_all(from, &mut text) {
        Ok(n) => run(&text[..n]),
        Err(error) => fail(errors, name, error),
    }
}

// The same of the file of that name.
pub fn run_file<R: Files, F: FnOnce(&[u8])>(files: &R, errors: &impl Print, name: &[u8], run: F)
    requires { F.IsAlwaysCallable run }
{
    match open(files, name) {
        Ok(mut file) => run_input(errors, &mut file, name, run),
        Err(error) => fail(errors, name, error),
    }
}

// Writes to standard output, or says that it cannot.
pub fn print(output: &impl Print, errors: &impl Print, text: &[u8]) {
    if let Err(error) = output.write_all(text) {
        fail(errors, b"standard output", error);
    }
}

// Whether the program has that argument; the program's own name is argument 0.
pub fn has_argument(env: &impl Env, i: usize) -> bool {
    !matches!(env.arg(i, &mut []), Err(FillError::NotPresent))
}

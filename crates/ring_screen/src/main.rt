// Prints the service screen of a controller after the last line of a schedule. Its first argument names the schedule's file, or is - for standard input; its second is the controller's
// number. What it cannot open, read or write, and other arguments, it says in one line on standard error. Its exit status is 0 all the same.
#![tactic(auto)]

ghost use Rattle.service.specs.After.{ScreenAfter};

use std::env::Env;

// The longest argument.
const WORD_BYTES: usize = 4096;

// The last controller's number.
const LAST: u64 = 15;

// Writes the screen of controller k after a schedule to standard output by way of lent memory, and answers how many bytes it has.
fn print_screen(rt: &HostRuntime, schedule: &[u8], k: u8, out: &mut [u8]) -> usize
    ensures { ScreenAfter schedule.now k out.old result out.new }
{
    let n = service::after(schedule, k, out);
    input::print(rt, &rt.stderr(), &out[..n]);
    n
}

// Shows controller k after a schedule.
fn show(rt: &HostRuntime, schedule: &[u8], k: u8) {
    let mut out = [0u8; service::SCREEN_BYTES];
    print_screen(rt, schedule, k, &mut out);
}

// The controller's number that a word is.
fn number_in(word: &[u8]) -> Option<u8> {
    let read = text::read_dec(word, 0)?;
    if read.next == word.len() && read.value <= LAST {
        Some(read.value as u8)
    } else {
        None
    }
}

// The number that the second argument is.
fn number(rt: &HostRuntime) -> Option<u8> {
    let mut word = [0u8; WORD_BYTES];
    let n = rt.arg(2, &mut word).ok()?;
    number_in(&word[..n])
}

// Shows controller k after the schedule that the word names.
fn show_named(rt: &HostRuntime, name: &[u8], k: u8) {
    let errors = rt.stderr();
    if name == b"-".as_slice() {
        input::run_input(
            &errors,
            &mut rt.stdin(),
            b"standard input",
            |text| show(rt, text, k),
        );
    } else {
        input::run_file(rt, &errors, name, |text| show(rt, text, k));
    }
}

// Shows controller k after the schedule that the first argument names.
fn show_first(rt: &HostRuntime, k: u8) {
    let mut name = [0u8; WORD_BYTES];
    match rt.arg(1, &mut name) {
        Ok(n) => show_named(rt, &name[..n], k),
        Err(_) => input::fail(&rt.stderr(), b"the file's name", input::name_too_long()),
    }
}

fn main(rt: HostRuntime) {
    match number(&rt) {
        Some(k) if !input::has_argument(&rt, 3) => show_first(&rt, k),
        _ => {
            let _ = rt.stderr().write_all(
                b"usage: ring_screen schedule controller, the schedule a file or -, the controller 0 to 15\n",
            );
        }
    }
}

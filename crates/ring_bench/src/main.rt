// Runs the schedule of the file that its one argument names, or of standard input where it has none, and prints the rows.
// What it cannot open, read or write, and a second argument, it says in one line on standard error. Its exit status is 0 all the same.
#![tactic(auto)]

ghost use Rattle.bench.specs.Rows.{Answered};

use std::env::{Env, FillError};

// The longest name of a file.
const NAME_BYTES: usize = 4096;

// Writes the rows of a schedule to standard output by way of lent memory, and answers how many bytes they have.
fn print_rows(rt: &HostRuntime, schedule: &[u8], rows: &mut [u8]) -> usize
    ensures { Answered schedule.now rows.old result rows.new }
{
    let n = bench::run(schedule, rows);
    input::print(rt, &rt.stderr(), &rows[..n]);
    n
}

fn run(rt: &HostRuntime, schedule: &[u8]) {
    // Room for the rows of any schedule; with it the program takes about 3 MB of the stack's 8 MB.
    let mut rows = [0u8; bench::ROWS_MAX];
    print_rows(rt, schedule, &mut rows);
}

fn main(rt: HostRuntime) {
    let errors = rt.stderr();
    if input::has_argument(&rt, 2) {
        let _ = errors.write_all(b"usage: ring_bench [schedule]\n");
        return;
    }
    let mut name = [0u8; NAME_BYTES];
    match rt.arg(1, &mut name) {
        Ok(n) => input::run_file(&rt, &errors, &name[..n], |text| run(&rt, text)),
        Err(FillError::NotPresent) => {
            input::run_input(
                &errors,
                &mut rt.stdin(),
                b"standard input",
                |text| run(&rt, text),
            );
        }
        Err(FillError::TooLong) => {
            input::fail(&errors, b"the file's name", input::name_too_long());
        }
    }
}

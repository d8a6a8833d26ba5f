// The rows of a schedule.
ghost use Rattle.bench.specs.Rows.{Answered};

// Writes the rows of a schedule from the start of `rows`, and answers how many bytes they have; 0, and `rows` as it was, where they have
// no room. 2,621,504 bytes are enough for every schedule, and with as many the schedule is run once, not twice.
#[unsafe(no_mangle)]
pub extern "C" fn pekdrav_schedule_rows(schedule: &[u8], rows: &mut [u8]) -> usize
    ensures { Answered schedule.now rows.old result rows.new }
{
    bench::run(schedule, rows)
}

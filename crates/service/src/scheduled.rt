// The service screen of a controller after a schedule.
ghost use Rattle.service.specs.After.{ScreenAfter};

use crate::screen;
use evidence::{GROUPS, KEYS};
use pool::{POOL_WORDS, RECORD};
use views::View;

// Writes the screen of controller k after the last line of a schedule from the start of `out`, and answers its length; 0, and `out` as it was, where there is no such controller or `out`
// has fewer than 32768 bytes. A schedule that is empty or too long is not run, so that no controller is set up by it.
pub fn after(schedule: &[u8], k: u8, out: &mut [u8]) -> usize
    ensures { ScreenAfter schedule.now k out.old result out.new }
{
    if k >= View::WIDTH {
        return 0;
    }
    let mut words = [0u64; POOL_WORDS];
    let mut ids = [0u16; RECORD];
    let c = bench::after(schedule, k, &mut ids, &mut words);
    let mut keys = [0u64; KEYS];
    let mut groups = [0u64; GROUPS];
    screen(c, &ids, &words, &mut keys, &mut groups, out)
}

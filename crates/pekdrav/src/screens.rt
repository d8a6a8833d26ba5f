// Service screens: of a controller in lent memory, and of one after a schedule.
ghost use Rattle.pool.specs.Pool.{record_in};
ghost use Rattle.engine.specs.Meaning.{controller_is};
ghost use Rattle.host.specs.Memory.{controller_at};
ghost use Rattle.service.specs.Service.{ServiceShows};
ghost use Rattle.service.specs.After.{ScreenAfter};

use evidence::{GROUPS, KEYS};
use host::FIELDS;
use pool::{POOL_WORDS, RECORD};

// Writes the service screen of the controller from the start of `out`, and answers its length; 0, and `out` as it was, where `out` has fewer than 32768 bytes. The votes of the record are
// gathered in `keys` and `groups`, which may hold anything.
#[unsafe(no_mangle)]
pub extern "C" fn pekdrav_raw_controller_screen(
    fields: &[u64; FIELDS],
    ids: &[u16; RECORD],
    words: &[u64; POOL_WORDS],
    keys: &mut [u64; KEYS],
    groups: &mut [u64; GROUPS],
    out: &mut [u8],
) -> usize
    ensures { ServiceShows (controller_is (controller_at fields.now)) (record_in words.now ids.now) out.old result out.new }
{
    let c = host::load(fields);
    service::screen(c, ids, words, keys, groups, out)
}

// The same of controller `number` after the last line of a schedule: 0, and `out` as it was, also where there is no such controller.
#[unsafe(no_mangle)]
pub extern "C" fn pekdrav_schedule_screen(schedule: &[u8], number: u8, out: &mut [u8]) -> usize
    ensures { ScreenAfter schedule.now number out.old result out.new }
{
    service::after(schedule, number, out)
}

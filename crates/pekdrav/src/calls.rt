// The engine's calls, one at a time, on a controller in lent memory. Its fields are one array and its record another, which are C's forms of
// them; a host has both in one struct, and a thin wrapper around each of these. A call that has no use for its record is not lent it. Each answers 0 taken, 1 signed, 2 entered,
// 3 delivered, 4 left, 5 quiet or 6 refused, and tells in `value` the pool number of what was signed, the entered view's word, the delivered payload, the refusal's number, or 0, and
// beside it the notice that was delivered, or 0.
ghost use Rattle.std.specs.Prelude.{List, ℕ};
ghost use Rattle.engine.specs.Meaning.{setup_is};
ghost use Rattle.host.specs.Host.{Fresh, SetsUp, Joins, Leaves, Sends, TakesTurn, AddsText};

use engine::{Controller, Setup};
use evidence::{GROUPS, KEYS};
use host::{FIELDS, VALUES};
use pool::{POOL_WORDS, RECORD};
use statements::NOTICES;
use windows::WINDOWS;

// The memory means a controller before setup.
#[unsafe(no_mangle)]
pub extern "C" fn pekdrav_raw_controller_init(fields: &mut [u64; FIELDS], ids: &mut [u16; RECORD])
    ensures { Fresh fields.new ids.new }
{
    let c = Controller::new();
    host::store(fields, c);
    pool::record_clear(ids);
}

// The controller `number` is set up in a ring of the notices of the first `count` senders and of the first `many` windows.
#[unsafe(no_mangle)]
pub extern "C" fn pekdrav_raw_controller_setup(
    fields: &mut [u64; FIELDS],
    ids: &mut [u16; RECORD],
    number: u8,
    members: u16,
    count: u8,
    senders: &[u8; NOTICES],
    many: u8,
    windows: &[u64; WINDOWS],
    value: &mut [u64; VALUES],
) -> u8
    ensures { SetsUp fields.old ids.old number (setup_is (record { members = members; notices = count; windows = many }) senders.now windows.now) result fields.new ids.new value.new }
{
    let c = host::load(fields);
    let s = Setup {
        members,
        notices: count as usize,
        windows: many as usize,
    };
    let called = c.setup(ids, number, s, senders, windows);
    host::finish(fields, called, value)
}

#[unsafe(no_mangle)]
pub extern "C" fn pekdrav_raw_controller_join(
    fields: &mut [u64; FIELDS],
    value: &mut [u64; VALUES],
) -> u8
    ensures { (R : List ℕ) → Joins fields.old R result fields.new R value.new }
{
    let c = host::load(fields);
    let called = c.join();
    host::finish(fields, called, value)
}

#[unsafe(no_mangle)]
pub extern "C" fn pekdrav_raw_controller_leave(
    fields: &mut [u64; FIELDS],
    value: &mut [u64; VALUES],
) -> u8
    ensures { (R : List ℕ) → Leaves fields.old R result fields.new R value.new }
{
    let c = host::load(fields);
    let called = c.leave();
    host::finish(fields, called, value)
}

#[unsafe(no_mangle)]
pub extern "C" fn pekdrav_raw_controller_send(
    fields: &mut [u64; FIELDS],
    notice: u8,
    payload: u64,
    value: &mut [u64; VALUES],
) -> u8
    ensures { (R : List ℕ) → Sends fields.old R notice payload result fields.new R value.new }
{
    let c = host::load(fields);
    let called = c.send(notice as u64, payload);
    host::finish(fields, called, value)
}

// Adds the statement whose text `line` is in the controller's ring. No addition changes a controller, so its fields are only read.
#[unsafe(no_mangle)]
pub extern "C" fn pekdrav_raw_controller_add(
    fields: &[u64; FIELDS],
    ids: &mut [u16; RECORD],
    words: &mut [u64; POOL_WORDS],
    line: &[u8],
    value: &mut [u64; VALUES],
) -> u8
    ensures { AddsText line.now words.old words.new fields.now ids.old result ids.new value.new }
{
    host::add_text(fields, ids, words, line, value)
}

// A turn at the minute of the week. The votes of the record are gathered in `keys` and `groups`, which may hold anything.
#[unsafe(no_mangle)]
pub extern "C" fn pekdrav_raw_controller_turn(
    fields: &mut [u64; FIELDS],
    ids: &mut [u16; RECORD],
    words: &mut [u64; POOL_WORDS],
    keys: &mut [u64; KEYS],
    groups: &mut [u64; GROUPS],
    minute: u16,
    value: &mut [u64; VALUES],
) -> u8
    ensures { TakesTurn words.old words.new fields.old ids.old minute result fields.new ids.new value.new }
{
    let c = host::load(fields);
    let called = c.turn_in(ids, words, keys, groups, minute);
    host::finish(fields, called, value)
}

// A controller that is kept in lent memory: specs/Memory.antt says what each word stands for.
ghost use Rattle.std.specs.Prelude.{◌≡◌, ◌+◌, ◌≤◌, get_or, ◌<◌, length, set};
ghost use Rattle.protocol.specs.Lists.{list_of};
ghost use Rattle.protocol.specs.Sets.{bit};
ghost use Rattle.host.specs.Memory.{held_in, binding_in, entered_in, sender_in, notice_in, send_in, time_in, ready_in, notices_in, controller_at};
ghost use Rattle.host.specs.Stored.{EnteredWords, Column, NoticeWords};

use engine::Controller;
use evidence::Notice;
use statements::{Binding, NOTICES};
use views::{History, View};
use windows::WINDOWS;

// Where each field is.
const READY: usize = 0;

const NUMBER: usize = 1;

const INITIAL: usize = 2;

const COUNT: usize = 3;

const DELIVERED: usize = 4;

const REQUESTED: usize = 5;

const JOINING: usize = 6;

const LEAVING: usize = 7;

// The notices that are bound and those that are barred.
const BOUND: usize = 8;

const BARRED: usize = 9;

// How many service windows there are.
const WINDOW_COUNT: usize = 10;

// How many views were entered.
const ENTERED: usize = 12;

// Where their words start.
const VIEWS: usize = 16;

// Where the senders of the notices start, the payloads that are bound and the payloads to send.
const SENDERS: usize = 32;

const PAYLOADS: usize = 96;

const SENDS: usize = 160;

// Where the windows start.
const TIMES: usize = 224;

// How many words a controller is kept in.
pub const FIELDS: usize = 232;

// Whether the controller is set up: all that an addition asks of it, beside the number of its notices.
pub fn is_ready(fields: &[u64; FIELDS]) -> bool
    ensures { result ≡ ready_in fields.now }
{
    fields[READY] != 0
}

// How many notices the controller has.
pub fn notice_count(fields: &[u64; FIELDS]) -> usize
    ensures { result ≡ notices_in fields.now }
{
    fields[COUNT] as usize
}

// The view that a word holds, whatever its bits.
fn view_in(w: u64) -> View
    ensures { result ≡ held_in w }
{
    View {
        joined: views::low_half(w),
        left: views::high_half(w),
    }
}

// What notice j is bound to by the two sets and its payload.
fn binding_in(bound: u64, barred: u64, j: usize, payload: u64) -> Binding
    ensures { result ≡ binding_in (bit bound j) (bit barred j) payload }
{
    if statements::has(barred, j) {
        Binding::Barred
    } else if statements::has(bound, j) {
        Binding::Bound(payload)
    } else {
        Binding::Unbound
    }
}

// The views that were entered.
fn entered_in(fields: &[u64; FIELDS]) -> History
    ensures { result ≡ entered_in fields.now }
{
    let mut views = [View { joined: 0, left: 0 }; View::LIMIT];
    for i in 0..View::LIMIT {
        views[i] = view_in(fields[VIEWS + i]);
    }
    History {
        views,
        len: fields[ENTERED] as usize,
    }
}

// The senders of the notices.
fn senders_in(fields: &[u64; FIELDS]) -> [u8; NOTICES]
    ensures { result ≡ list_of 64 (sender_in fields.now) }
{
    let mut senders = [0u8; NOTICES];
    for j in 0..NOTICES {
        senders[j] = (fields[SENDERS + j] % 256) as u8;
    }
    senders
}

// Their bindings. Only the notices that are in a set are visited: a ring of few notices takes few steps.
fn notices_in(fields: &[u64; FIELDS]) -> [Notice; NOTICES]
    ensures { result ≡ list_of 64 (notice_in fields.now) }
{
    let mut notices = [Notice {
        binding: Binding::Unbound,
    }; NOTICES];
    let bound = fields[BOUND];
    let barred = fields[BARRED];
    let some = statements::either(bound, barred);
    let mut j = statements::next_in(some, 0);
    while j < NOTICES {
        notices[j] = Notice {
            binding: binding_in(bound, barred, j, fields[PAYLOADS + j]),
        };
        j = statements::next_in(some, j + 1);
    }
    notices
}

// The N words from word `from` on: the payloads to send, and the service windows, of which all eight are read whatever they hold, since a call reads only as many as the setup named.
fn words_from<const N: usize>(fields: &[u64; FIELDS], from: usize) -> [u64; N]
    requires { from + N ≤ 232 }
    ensures { result ≡ list_of N (λ i. get_or fields.now (from + i) 0) }
{
    let mut words = [0u64; N];
    words.copy_from_slice(&fields[from..from + N]);
    words
}

// The controller that the memory means.
pub fn load(fields: &[u64; FIELDS]) -> Controller
    ensures { result ≡ controller_at fields.now }
{
    Controller {
        ready: is_ready(fields),
        number: (fields[NUMBER] % 256) as u8,
        init: view_in(fields[INITIAL]),
        notices: notice_count(fields),
        senders: senders_in(fields),
        entered: entered_in(fields),
        held: notices_in(fields),
        sends: words_from(fields, SENDS),
        delivered: fields[DELIVERED],
        requested: fields[REQUESTED],
        joining: fields[JOINING] != 0,
        leaving: fields[LEAVING] != 0,
        windows: fields[WINDOW_COUNT] as usize,
        times: words_from(fields, TIMES),
    }
}

// The word that holds v, whatever its bits.
fn word_of(v: View) -> u64
    ensures { held_in result ≡ v }
{
    views::of_halves(v.joined, v.left)
}

// The words of the views that were entered, and how many they are.
fn put_entered(words: &mut [u64; FIELDS], entered: History)
    ensures { EnteredWords entered words.new }
{
    words[ENTERED] = entered.len as u64;
    for i in 0..View::LIMIT {
        words[VIEWS + i] = word_of(entered.views[i]);
    }
}

// The words of the senders.
fn put_senders(words: &mut [u64; FIELDS], senders: &[u8; NOTICES])
    ensures { Column 32 64 sender_in senders.now words.old words.new }
{
    for j in 0..NOTICES {
        words[SENDERS + j] = u64::from(senders[j]);
    }
}

// The N words from word `from` on.
fn put_words<const N: usize>(words: &mut [u64; FIELDS], from: usize, list: &[u64; N])
    requires { from + N ≤ 232 }
    ensures { Column from N (λ X i. get_or X (from + i) 0) list.now words.old words.new }
{
    words[from..from + N].copy_from_slice(list);
}

// The words of the bindings. The payload of a notice that is not bound is not read, so it is not written.
fn put_bindings(words: &mut [u64; FIELDS], held: &[Notice; NOTICES])
    ensures { Column 96 64 notice_in held.now words.old words.new }
{
    let mut bound = 0u64;
    let mut barred = 0u64;
    for j in 0..NOTICES {
        match held[j].binding {
            Binding::Unbound => {}
            Binding::Bound(payload) => {
                words[PAYLOADS + j] = payload;
                bound = statements::with_notice(bound, j);
            }
            Binding::Barred => barred = statements::with_notice(barred, j),
        }
    }
    words[BOUND] = bound;
    words[BARRED] = barred;
}

// The words of the notices.
fn put_notices(
    words: &mut [u64; FIELDS],
    senders: &[u8; NOTICES],
    held: &[Notice; NOTICES],
    sends: &[u64; NOTICES],
)
    ensures { NoticeWords words.old senders.now held.now sends.now words.new }
{
    put_senders(words, senders);
    put_words(words, SENDS, sends);
    put_bindings(words, held);
}

// The words of the service windows, and how many they are.
fn put_times(words: &mut [u64; FIELDS], windows: usize, times: &[u64; WINDOWS])
    ensures { Column 224 8 time_in times.now (set words.old 10 windows) words.new }
{
    words[WINDOW_COUNT] = windows as u64;
    put_words(words, TIMES, times);
}

// The memory means c from now on.
pub fn store(fields: &mut [u64; FIELDS], c: Controller)
    ensures { controller_at fields.new ≡ c }
{
    put_entered(fields, c.entered);
    put_times(fields, c.windows, &c.times);
    put_notices(fields, &c.senders, &c.held, &c.sends);
    fields[READY] = c.ready as u64;
    fields[NUMBER] = u64::from(c.number);
    fields[INITIAL] = word_of(c.init);
    fields[COUNT] = c.notices as u64;
    fields[DELIVERED] = c.delivered;
    fields[REQUESTED] = c.requested;
    fields[JOINING] = c.joining as u64;
    fields[LEAVING] = c.leaving as u64;
}

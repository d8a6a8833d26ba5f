// Service windows. A window is one word: the weekday in its low 16 bits, the first minute in the next 16, the end in the high 32.
#![tactic(auto)]

ghost use Rattle.std.specs.Prelude.{◌≡◌, ◌≤◌, min};
ghost use Rattle.protocol.specs.Window.{window_allowed, windows_allowed, is_inside, is_open};
ghost use Rattle.windows.specs.Windows.{window_in, window_of, windows_in};

// A setup has no more windows.
pub const WINDOWS: usize = 8;

// The last minute of a week.
pub const LAST_MINUTE: u16 = 10079;

// How many minutes a day has.
const DAY: u64 = 1440;

const LAST_WEEKDAY: u64 = 6;

// What the first minute and the end count by in a word.
const FIRST: u64 = 65536;

const END: u64 = 4294967296;

// The word of a window.
pub fn word_of(weekday: u16, first: u16, end: u16) -> u64
    ensures { window_in result ≡ window_of weekday first end }
{
    u64::from(weekday) + u64::from(first) * FIRST + u64::from(end) * END
}

fn weekday_of(w: u64) -> u64
    ensures { result ≡ (window_in w).weekday }
{
    w % FIRST
}

fn first_of(w: u64) -> u64
    ensures { result ≡ (window_in w).first }
{
    w / FIRST % FIRST
}

fn end_of(w: u64) -> u64
    ensures { result ≡ (window_in w).end }
{
    w / END
}

// Whether a setup may have the window.
fn is_allowed(w: u64) -> bool
    ensures { result ≡ window_allowed (window_in w) }
{
    weekday_of(w) <= LAST_WEEKDAY && first_of(w) < end_of(w) && end_of(w) <= DAY
}

// Whether a setup may have the first `count` windows.
pub fn are_allowed(windows: &[u64; WINDOWS], count: usize) -> bool
    ensures { result ≡ windows_allowed (windows_in windows.now count) }
{
    count <= WINDOWS && windows[..count].iter().all(|w| is_allowed(*w))
}

// Whether the minute of the week is inside the window.
fn is_inside(w: u64, minute: u16) -> bool
    ensures { result ≡ is_inside minute (window_in w) }
{
    let m = u64::from(minute);
    weekday_of(w) == m / DAY && first_of(w) <= m % DAY && m % DAY < end_of(w)
}

// Whether a leave may be signed at the minute of the week: it is inside one of the first `count` windows, or there is none.
pub fn is_open(windows: &[u64; WINDOWS], count: usize, minute: u16) -> bool
    ensures { result ≡ is_open (windows_in windows.now (min count 8)) minute }
{
    count == 0
        || windows[..count.min(WINDOWS)]
            .iter()
            .any(|w| is_inside(*w, minute))
}

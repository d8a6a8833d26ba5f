// Statements: read from their text and written to it. A statement has one text (specs/Text.antt). What a report tells of each notice stands
// in a lent block (specs/Block.antt); a statement of any other kind means the same with every block.
#![tactic(auto)]

ghost use Rattle.std.specs.Prelude.{◌≡◌, ◌∷◌, ◌+◌, ◌*◌, ◌≤◌, IfSome, leb, length};
ghost use Rattle.std.specs.Option.{option_map};
ghost use Rattle.text.specs.Text.{dec_text};
ghost use Rattle.text.specs.Written.{Wrote};
ghost use Rattle.statements.specs.Text.{view_text, text};
ghost use Rattle.views.specs.Held.{view_is};
ghost use Rattle.statements.specs.Meaning.{first_views, first_of, stmt_of, Many, FitsView, FitsFirst, FitsViews};
ghost use Rattle.statements.specs.Promise.{ParseOf, ReadOf, written_count, written};
ghost use Rattle.statements.specs.Parts.{Bounded, NumberAt, ViewAt, meant, From, Ends, head_fields, start_text, first_text, tail_text, views_text};

mod block;
mod field_rules;
mod groups;
mod kind;
mod make;
mod sets;

pub use block::{bound_payload, clear, tell, told_at};
pub use field_rules::keeps_field_rules;
pub use groups::number_of;
pub use kind::{Kind, UnknownKind};
pub use make::{ack, agree_history, agree_view, join, leave, prepare, report, store};
pub use sets::{common, either, except, has, next_in, put_notice, with_notice};
use text::{COMMA, Read};
use views::{History, View};

// A ring has at most this many notices.
pub const NOTICES: usize = 64;

// The words of a block: three sets, and two words for each notice.
pub const BLOCK: usize = 131;

// No text that is written or read is longer.
pub const LONGEST: usize = 3120;

// A view is written as eight hexadecimal digits, with a comma before it.
const VIEW_DIGITS: usize = 8;

const VIEW_BYTES: usize = 9;

// A view's number is the joined set times `SETS`, and the left set.
const SETS: u64 = 65536;

// What every text has besides its numbers, its groups and its history: five commas and two views.
const FIXED_BYTES: usize = 21;

// The greatest number of eight bits.
pub const BYTE_MAX: u64 = u8::MAX as u64;

// A view in a field that the kind does not use.
const UNUSED: View = View { joined: 0, left: 0 };

#[derive(Clone, Copy)]
pub enum Binding {
    Unbound,
    Bound(u64),
    Barred,
}

// What a report tells of one notice.
#[derive(Clone, Copy)]
pub struct Told {
    pub binding: Binding,
    pub stored: bool,
    pub kept: u64,
}

// What all kinds have. The groups of a report are told by a block, their number stands here; the payload is that of a prepare, an ack or a store.
#[derive(Clone, Copy)]
pub struct Statement {
    pub kind: u8,
    pub origin: u8,
    pub at: View,
    pub view: View,
    pub notice: u8,
    pub groups: usize,
    pub payload: u64,
    pub history: History,
}

// The fields up to the notice.
#[derive(Clone, Copy)]
pub struct Head {
    pub kind: u8,
    pub origin: u8,
    pub at: View,
    pub view: View,
    pub notice: u8,
}

// What was read, if it is at most `most`.
fn bounded(r: Option<Read<u64>>, most: u64) -> Option<Read<u64>>
    ensures { Bounded r most result }
{
    let read = r?;
    (read.value <= most).then_some(read)
}

pub fn number_at(s: &[u8], at: usize, most: u64) -> Option<Read<u64>>
    ensures { NumberAt s.now at most result }
{
    if !text::comma_at(s, at) {
        return None;
    }
    bounded(text::read_dec(s, at + 1), most)
}

fn view_at(s: &[u8], at: usize) -> Option<Read<View>>
    ensures { ViewAt s.now at result }
{
    if !text::comma_at(s, at) {
        return None;
    }
    let sets = text::read_hex(s, at + 1, VIEW_DIGITS)?;
    Some(Read {
        value: View {
            joined: (sets.value / SETS) as u32,
            left: (sets.value % SETS) as u32,
        },
        next: sets.next,
    })
}

// As many views as were counted, to the end of the text.
fn views_at(s: &[u8], from: usize, count: usize) -> Option<History>
    requires { count ≤ 16 }
    ensures read { Ends tail_text (Many FitsView count) s.now from (option_map first_of result) }
    ensures count { IfSome result (λ h. h.len ≡ count) }
{
    let mut views = [UNUSED; View::LIMIT];
    let mut at = from;
    for i in 0..count {
        let read = view_at(s, at)?;
        views[i] = read.value;
        at = read.next;
    }
    if at < s.len() {
        return None;
    }
    Some(History { views, len: count })
}

// The count and the views, to the end of the text.
fn tail_at(s: &[u8], at: usize) -> Option<History>
    ensures read { Ends views_text FitsViews s.now at (option_map first_of result) }
    ensures count { IfSome result (λ h. h.len ≤ 16) }
{
    let count = number_at(s, at, View::LIMIT as u64)?;
    views_at(s, count.next, count.value as usize)
}

// The fields up to the notice, from the start of the text.
fn head_at(s: &[u8]) -> Option<Read<Head>>
    ensures { From first_text FitsFirst s.now 0 (meant head_fields result) }
{
    let kind = bounded(text::read_dec(s, 0), BYTE_MAX)?;
    let origin = number_at(s, kind.next, BYTE_MAX)?;
    let at = view_at(s, origin.next)?;
    let view = view_at(s, at.next)?;
    let notice = number_at(s, view.next, BYTE_MAX)?;
    Some(Read {
        value: Head {
            kind: kind.value as u8,
            origin: origin.value as u8,
            at: at.value,
            view: view.value,
            notice: notice.value as u8,
        },
        next: notice.next,
    })
}

// A text as one of a statement with n notices, whether or not it keeps the field rules. The first damaged part ends the reading.
fn parse(s: &[u8], n: usize, block: &mut [u64; BLOCK]) -> Option<Statement>
    requires { n ≤ 64 }
    ensures { ParseOf s.now n block.new result }
{
    let head = head_at(s)?;
    let Head {
        kind,
        origin,
        at,
        view,
        notice,
    } = head.value;
    let told = groups::told_from(s, head.next, kind, n, block)?;
    let history = tail_at(s, told.next)?;
    Some(Statement {
        kind,
        origin,
        at,
        view,
        notice,
        groups: n,
        payload: told.value,
        history,
    })
}

// Reads a statement of a ring with this number of notices; above 64 it counts as 64. What a report tells goes into the block. A text that is
// refused leaves in the block what has been read of it.
pub fn read(s: &[u8], notices: usize, block: &mut [u64; BLOCK]) -> Option<Statement>
    ensures { ReadOf s.now notices block.new result }
{
    let st = parse(s, notices.min(NOTICES), block)?;
    keeps_field_rules(st, block, notices).then_some(st)
}

// Writes a comma and a number from a position with room for them, and answers the next position.
pub fn put_number(out: &mut [u8], at: usize, v: u64) -> usize
    requires { at + 1 + length (dec_text v) ≤ length out.old }
    ensures { Wrote out.old at (44 ∷ dec_text v) result out.new }
{
    out[at] = COMMA;
    text::write_dec(out, at + 1, v)
}

pub fn put_view(out: &mut [u8], at: usize, v: View) -> usize
    requires { at + 9 ≤ length out.old }
    ensures { (result ≡ at + 9) × Wrote out.old at (44 ∷ view_text (view_is v)) result out.new }
{
    out[at] = COMMA;
    text::write_hex(
        out,
        at + 1,
        u64::from(v.joined_set()) * SETS + u64::from(v.left_set()),
        VIEW_DIGITS,
    )
}

fn put_views(out: &mut [u8], from: usize, h: &History) -> usize
    requires { (h.now.len ≤ 16) × (from + 9 * h.now.len ≤ length out.old) }
    ensures { (result ≡ from + 9 * h.now.len) × Wrote out.old from (tail_text (first_views h.now.len h.now.views)) result out.new }
{
    let mut at = from;
    for v in &h.views[..h.len] {
        at = put_view(out, at, *v);
    }
    at
}

// Writes the fields up to the view, from the start.
fn put_first(out: &mut [u8], st: &Statement) -> usize
    requires { length (start_text st.now.kind st.now.origin (view_is st.now.at) (view_is st.now.view)) ≤ length out.old }
    ensures { Wrote out.old 0 (start_text st.now.kind st.now.origin (view_is st.now.at) (view_is st.now.view)) result out.new }
{
    let a = text::write_dec(out, 0, u64::from(st.kind));
    let b = put_number(out, a, u64::from(st.origin));
    let c = put_view(out, b, st.at);
    put_view(out, c, st.view)
}

// How long a text is without its groups.
fn text_len(st: &Statement) -> usize
    requires { st.now.history.len ≤ 16 }
    ensures { (result ≡ length (dec_text st.now.kind) + length (dec_text st.now.origin) + length (dec_text st.now.notice) + length (dec_text st.now.history.len) + 21 + 9 * st.now.history.len) × (result ≤ 245) }
{
    let a = text::dec_len(u64::from(st.kind)) + text::dec_len(u64::from(st.origin));
    let b = text::dec_len(u64::from(st.notice)) + text::dec_len(st.history.len as u64);
    a + b + FIXED_BYTES + VIEW_BYTES * st.history.len
}

// Whether the text has no more bytes than this. No text is longer than `LONGEST`, and then none is counted.
fn has_room(st: Statement, block: &[u64; BLOCK], room: usize) -> bool
    requires { st.history.len ≤ 16 }
    ensures { result ≡ leb (length (text (stmt_of st block.now))) room }
{
    room >= LONGEST || text_len(&st) + groups::told_len(&st, block) <= room
}

// Writes a text that has room.
fn put_statement(out: &mut [u8], st: &Statement, block: &[u64; BLOCK]) -> usize
    requires { (st.now.history.len ≤ 16) × (length (text (stmt_of st.now block.now)) ≤ length out.old) }
    ensures { Wrote out.old 0 (text (stmt_of st.now block.now)) result out.new }
{
    let a = put_first(out, st);
    let b = put_number(out, a, u64::from(st.notice));
    let c = groups::put_told(out, b, st, block);
    let d = put_number(out, c, st.history.len as u64);
    put_views(out, d, &st.history)
}

// Writes a statement's text from the start of `out`, and answers its length; 0 where it has more than 16 views or `out` is too short.
pub fn write(st: Statement, block: &[u64; BLOCK], out: &mut [u8]) -> usize
    ensures { (result ≡ written_count st block.now out.old) × (out.new ≡ written st block.now out.old) × (result ≤ 3120) }
{
    if st.history.len > View::LIMIT || !has_room(st, block, out.len()) {
        return 0;
    }
    put_statement(out, &st, block)
}

// The four fields from binding to kept, for each notice of a report and once in every other kind: read and written.
ghost use Rattle.std.specs.Prelude.{◌≡◌, ◌+◌, ◌*◌, ◌≤◌, min, eqb, length};
ghost use Rattle.std.specs.Option.{option_map};
ghost use Rattle.text.specs.Scan.{read};
ghost use Rattle.text.specs.Written.{Wrote};
ghost use Rattle.protocol.specs.Statement.{binding_number, kept_payload};
ghost use Rattle.protocol.specs.Lists.{when, list_of};
ghost use Rattle.statements.specs.Block.{binding_is, told_is, group_at, groups_of};
ghost use Rattle.statements.specs.Meaning.{limit, FitsGroup, FitsPayload, FitsGroups, FitsTold};
ghost use Rattle.statements.specs.Parts.{ZeroAt, NothingAt, meant, From, binding_from, second_text, group_text, payload_text, groups_text};

use crate::{BLOCK, Binding, Kind, NOTICES, Statement, Told, block, number_at, put_number};
use text::{COMMA, NUMBER_MAX, Read, ZERO};

// The bytes of a group all of whose fields are 0.
const EMPTY_BYTES: usize = 8;

// What every group has besides its two payloads: four commas, and a digit each for binding and stored.
const FIXED_BYTES: usize = 6;

// The same of a group with a payload alone, in which what is kept is 0.
const PAYLOAD_BYTES: usize = 7;

// The largest payload of a field that is used, and of one that is not.
fn limit(used: bool) -> u64
    ensures { result ≡ limit used }
{
    if used { NUMBER_MAX } else { 0 }
}

fn binding_of(n: u64, payload: u64) -> Binding
    ensures { result ≡ binding_from n payload }
{
    match n {
        1 => Binding::Bound(payload),
        2 => Binding::Barred,
        _ => Binding::Unbound,
    }
}

// One notice's fields. A payload that is not bound and one kept that is not stored are 0.
fn group_at(s: &[u8], at: usize) -> Option<Read<Told>>
    ensures { From group_text FitsGroup s.now at (meant told_is result) }
{
    let binding = number_at(s, at, 2)?;
    let payload = number_at(s, binding.next, limit(binding.value == 1))?;
    let stored = number_at(s, payload.next, 1)?;
    let kept = number_at(s, stored.next, limit(stored.value == 1))?;
    Some(Read {
        value: Told {
            binding: binding_of(binding.value, payload.value),
            stored: stored.value == 1,
            kept: kept.value,
        },
        next: kept.next,
    })
}

// The fields of a kind that uses the payload at most.
fn payload_at(s: &[u8], at: usize) -> Option<Read<u64>>
    ensures { From payload_text FitsPayload s.now at result }
{
    let binding = number_at(s, at, 0)?;
    let payload = number_at(s, binding.next, NUMBER_MAX)?;
    let stored = number_at(s, payload.next, 0)?;
    let kept = number_at(s, stored.next, 0)?;
    Some(Read {
        value: payload.value,
        next: kept.next,
    })
}

// Whether a comma and a 0 stand at a position.
fn zero_at(s: &[u8], at: usize) -> bool
    requires { at + 2 ≤ length s.now }
    ensures { ZeroAt s.now at result }
{
    (s[at] == COMMA) & (s[at + 1] == ZERO)
}

// Whether four fields that are 0 stand at a position, and a comma after them. Most groups of a report are so, and are then passed over at once.
fn nothing_at(s: &[u8], at: usize) -> bool
    ensures { NothingAt s.now at result }
{
    if s.len().saturating_sub(at) <= EMPTY_BYTES {
        return false;
    }
    zero_at(s, at)
        & zero_at(s, at + 2)
        & zero_at(s, at + 4)
        & zero_at(s, at + 6)
        & (s[at + EMPTY_BYTES] == COMMA)
}

// The fields of n notices, which the block tells from now on, and the position after them. A damaged group ends the reading.
fn groups_at(s: &[u8], from: usize, n: usize, block: &mut [u64; BLOCK]) -> Option<usize>
    requires { n ≤ 64 }
    ensures { From groups_text (FitsGroups n) s.now from (option_map (read (list_of n (group_at block.new))) result) }
{
    block::clear(block);
    let mut at = from;
    for j in 0..n {
        if nothing_at(s, at) {
            at += EMPTY_BYTES;
            continue;
        }
        let group = group_at(s, at)?;
        block::tell(block, j, group.value);
        at = group.next;
    }
    Some(at)
}

// The groups of a statement of this kind: a report's go into the block, and the payload of any other kind is answered.
pub fn told_from(
    s: &[u8],
    from: usize,
    kind: u8,
    n: usize,
    block: &mut [u64; BLOCK],
) -> Option<Read<u64>>
    requires { n ≤ 64 }
    ensures { From groups_text (FitsTold (eqb kind 5) n) s.now from (meant (λ m. groups_of kind n m block.new) result) }
{
    if kind == Kind::Report as u8 {
        let next = groups_at(s, from, n, block)?;
        return Some(Read { value: 0, next });
    }
    payload_at(s, from)
}

// The number that a binding is written as.
pub fn number_of(b: Binding) -> u64
    ensures { (result ≡ binding_number (binding_is b)) × (result ≤ 2) }
{
    match b {
        Binding::Unbound => 0,
        Binding::Bound(_) => 1,
        Binding::Barred => 2,
    }
}

impl Told {
    // The payload that is kept, or 0.
    fn kept_payload(self) -> u64
        ensures { result ≡ kept_payload (when self.stored self.kept) }
    {
        if self.stored { self.kept } else { 0 }
    }
}

// How long the text of one notice's fields is.
fn group_len(t: Told) -> usize
    ensures { (result ≡ length (group_text (told_is t))) × (result ≤ 46) }
{
    text::dec_len(block::bound_payload(t.binding)) + text::dec_len(t.kept_payload()) + FIXED_BYTES
}

fn groups_len(block: &[u64; BLOCK], n: usize) -> usize
    requires { n ≤ 64 }
    ensures { (result ≡ length (groups_text (list_of n (group_at block.now)))) × (result ≤ 46 * n) }
{
    let mut size = 0;
    for j in 0..n {
        size += group_len(block::told_at(block, j));
    }
    size
}

// How long the text of a statement's groups is.
pub fn told_len(st: &Statement, block: &[u64; BLOCK]) -> usize
    ensures { (result ≡ length (groups_text (groups_of st.now.kind st.now.groups st.now.payload block.now))) × (result ≤ 2944) }
{
    if st.kind == Kind::Report as u8 {
        groups_len(block, st.groups.min(NOTICES))
    } else {
        text::dec_len(st.payload) + PAYLOAD_BYTES
    }
}

// Writes the fields from the binding to what is kept.
fn put_second(
    out: &mut [u8],
    at: usize,
    binding: u64,
    payload: u64,
    stored: u64,
    kept: u64,
) -> usize
    requires { at + length (second_text binding payload stored kept) ≤ length out.old }
    ensures { Wrote out.old at (second_text binding payload stored kept) result out.new }
{
    let a = put_number(out, at, binding);
    let b = put_number(out, a, payload);
    let c = put_number(out, b, stored);
    put_number(out, c, kept)
}

fn put_group(out: &mut [u8], at: usize, t: Told) -> usize
    requires { at + length (group_text (told_is t)) ≤ length out.old }
    ensures { Wrote out.old at (group_text (told_is t)) result out.new }
{
    put_second(
        out,
        at,
        number_of(t.binding),
        block::bound_payload(t.binding),
        u64::from(t.stored),
        t.kept_payload(),
    )
}

fn put_groups(out: &mut [u8], from: usize, block: &[u64; BLOCK], n: usize) -> usize
    requires { (n ≤ 64) × (from + length (groups_text (list_of n (group_at block.now))) ≤ length out.old) }
    ensures { Wrote out.old from (groups_text (list_of n (group_at block.now))) result out.new }
{
    let mut at = from;
    for j in 0..n {
        at = put_group(out, at, block::told_at(block, j));
    }
    at
}

// Writes a statement's groups from a position with room for them, and answers the next position.
pub fn put_told(out: &mut [u8], at: usize, st: &Statement, block: &[u64; BLOCK]) -> usize
    requires { at + length (groups_text (groups_of st.now.kind st.now.groups st.now.payload block.now)) ≤ length out.old }
    ensures { Wrote out.old at (groups_text (groups_of st.now.kind st.now.groups st.now.payload block.now)) result out.new }
{
    if st.kind == Kind::Report as u8 {
        put_groups(out, at, block, st.groups.min(NOTICES))
    } else {
        put_second(out, at, 0, st.payload, 0, 0)
    }
}

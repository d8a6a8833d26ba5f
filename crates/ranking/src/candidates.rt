// The candidates, the smaller first. Comparable views differ in size, so a slot for each size holds them.
ghost use Rattle.std.specs.Prelude.{◌≡◌, List, ◌≤◌, ◌<◌, length};
ghost use Rattle.protocol.specs.View.{size};
ghost use Rattle.protocol.specs.Statement.{Stmt};
ghost use Rattle.views.specs.View.{view_of};
ghost use Rattle.tables.specs.Index.{key_at};
ghost use Rattle.ranking.specs.Slots.{view_scale, choice_mark, Slots, Filled, Compared, Listed};
ghost use Rattle.ranking.specs.Ranking.{MarkedChoices, CandidatesOf};

use crate::Ranked;
use sealing::{MEMO, Verdict};
use tables::KEYS;
use views::View;
use votes::CHOICES;

// Views have this many sizes: from 0 to all joined and all left.
const SIZES: usize = 2 * View::WIDTH as usize + 1;

// The size of v.
fn size_of(v: u64) -> usize
    ensures { (result ≡ size 16 (view_of v)) × (result ≤ 32) }
{
    views::size_view(v) as usize
}

// The size of v; most slots still hold the initial view, whose size is known.
fn slot_size(v: u64, init: u64, least: usize) -> usize
    requires { (least ≡ size 16 (view_of init)) × (least ≤ 32) }
    ensures { (result ≡ size 16 (view_of v)) × (result ≤ 32) }
{
    if v == init { least } else { size_of(v) }
}

// Puts the views of the marked choices into the slots of their sizes; false where two of one size differ.
fn fill_slots(
    keys: &[u64; KEYS],
    memo: &[Verdict; MEMO],
    choices: usize,
    init: u64,
    slots: &mut [u64; SIZES],
) -> bool
    requires { (choices ≤ 512) × Slots view_scale init (key_at keys.now 0) (choice_mark memo.now) 0 slots.old }
    ensures { Filled view_scale init (key_at keys.now 0) (choice_mark memo.now) choices slots.new result }
{
    for c in 0..choices {
        if !memo[c].is_yes() {
            continue;
        }
        let v = tables::key(keys, CHOICES, c);
        let k = size_of(v);
        let u = slots[k];
        if u == v {
            continue;
        }
        if size_of(u) == k {
            return false;
        }
        slots[k] = v;
    }
    true
}

// Whether every two views of the slots are comparable: it is enough that each lies within the next.
fn compare_slots(slots: &[u64; SIZES], init: u64, least: usize) -> bool
    requires { (least ≡ size 16 (view_of init)) × (least ≤ 32) }
    ensures { Compared slots.now result }
{
    let mut last = None;
    for k in 0..SIZES {
        let v = slots[k];
        if slot_size(v, init, least) != k {
            continue;
        }
        if let Some(u) = last {
            if !views::within_view(u, v) {
                return false;
            }
        }
        last = Some(v);
    }
    true
}

// Lists the views of the slots: how many, or one above the limit where there are more.
fn list_slots(slots: &[u64; SIZES], init: u64, least: usize, out: &mut [u64; View::LIMIT]) -> usize
    requires { (length out.old ≡ 16) × (least ≡ size 16 (view_of init)) × (least ≤ 32) }
    ensures { Listed slots.now out.new result }
{
    let mut n = 0usize;
    for k in 0..SIZES {
        let v = slots[k];
        if slot_size(v, init, least) != k {
            continue;
        }
        if n == View::LIMIT {
            return View::LIMIT + 1;
        }
        out[n] = v;
        n += 1;
    }
    n
}

// The candidates of a record, of whose choices, so many, `memo` marks those that are of candidates, into `out`.
pub fn rank(
    keys: &[u64; KEYS],
    memo: &[Verdict; MEMO],
    choices: usize,
    init: u64,
    out: &mut [u64; View::LIMIT],
) -> Ranked
    requires { choices ≤ 512 }
    ensures { (X : List Stmt) → MarkedChoices init X keys.now memo.now choices → CandidatesOf init X out.new result }
{
    let mut slots = [init; SIZES];
    let least = size_of(init);
    if !fill_slots(keys, memo, choices, init, &mut slots) || !compare_slots(&slots, init, least) {
        return Ranked {
            conflict: true,
            many: false,
            count: 0,
        };
    }
    let count = list_slots(&slots, init, least, out);
    Ranked {
        conflict: false,
        many: View::LIMIT < count,
        count,
    }
}

// The views of the greatest history that need reports.
ghost use Rattle.std.specs.Prelude.{◌≡◌, not, ◌&&◌, ◌≤◌};
ghost use Rattle.protocol.specs.Sets.{bit};
ghost use Rattle.protocol.specs.View.{below};
ghost use Rattle.protocol.specs.History.{top};
ghost use Rattle.views.specs.View.{view_of, ring_of_word, views_of};
ghost use Rattle.evidence.specs.Reports.{RemainingOf};

use views::View;

// The last of the first n views; the initial view, if there is none.
fn top_of(list: &[u64; View::LIMIT], n: usize, init: u64) -> u64
    requires { n ≤ 16 }
    ensures { view_of result ≡ top (ring_of_word init) (views_of list.now n) }
{
    if n == 0 { init } else { list[n - 1] }
}

// Whether u, at place i, needs reports: it lies below the top t, and the set of the skipped places lacks i.
fn is_needed(u: u64, t: u64, skipped: u32, i: usize) -> bool
    ensures { result ≡ (below 16 (view_of u) (view_of t) && not (bit skipped i)) }
{
    views::below_view(u, t) && !statements::has(u64::from(skipped), i)
}

// Lists those among its first n views: how many. Every view is written, and stays only if it needs reports, so that the loop has no branch.
pub fn needed(
    greatest: &[u64; View::LIMIT],
    n: usize,
    skipped: u32,
    init: u64,
    needed: &mut [u64; View::LIMIT],
) -> usize
    requires { n ≤ 16 }
    ensures { RemainingOf (ring_of_word init) greatest.now n skipped needed.new result }
{
    let t = top_of(greatest, n, init);
    let mut count = 0;
    for (i, u) in greatest[..n].iter().enumerate() {
        needed[count] = *u;
        count += usize::from(is_needed(*u, t, skipped, i));
    }
    count
}

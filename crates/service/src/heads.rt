// The lines at the head of the service screen: which controller it is, where it is, and what is wished and chosen.
ghost use Rattle.std.specs.Prelude.{◌≡◌, false, ◌+◌, ◌≤◌, length};
ghost use Rattle.text.specs.Written.{Wrote};
ghost use Rattle.views.specs.View.{view_of, views_of};
ghost use Rattle.views.specs.Held.{view_is, views_is};
ghost use Rattle.service.specs.Service.{number_line, entered_line, stands_line, wished_line, candidates_line};
ghost use Rattle.service.specs.ServiceParts.{place_line, head_text};

use crate::sets;
use views::{History, View};

// The number of the controller, in at most 32 bytes.
fn put_number(out: &mut [u8], at: usize, k: u8) -> usize
    requires { at + 32 ≤ length out.old }
    ensures { Wrote out.old at (number_line k) result out.new × (result ≤ at + 32) }
{
    let a = text::write_text(out, at, b"controller ");
    let b = text::write_dec(out, a, k as u64);
    text::write_text(out, b, b"\n")
}

// That it stands in a view, in at most 68 bytes.
fn put_stands(out: &mut [u8], at: usize, v: u64) -> usize
    requires { at + 68 ≤ length out.old }
    ensures { Wrote out.old at (stands_line (view_of v)) result out.new × (result ≤ at + 68) }
{
    let a = text::write_text(out, at, b"stands in ");
    let b = sets::put_members(out, a, v);
    text::write_text(out, b, b"\n")
}

// The view that it entered last, in at most 68 bytes.
fn put_entered(out: &mut [u8], at: usize, h: History) -> usize
    requires { at + 68 ≤ length out.old }
    ensures { Wrote out.old at (entered_line (views_is h)) result out.new × (result ≤ at + 68) }
{
    let n = h.count();
    if n == 0 {
        return text::write_text(out, at, b"entered nothing\n");
    }
    let a = text::write_text(out, at, b"entered ");
    let b = sets::put_members(out, a, h.views[n - 1].word());
    text::write_text(out, b, b"\n")
}

// Where the controller is: whether it left, or stands in t, and else the last of the views that it entered. In at most 68 bytes.
fn put_place(out: &mut [u8], at: usize, left: bool, stands: bool, t: View, h: History) -> usize
    requires { at + 68 ≤ length out.old }
    ensures { Wrote out.old at (place_line left stands (view_is t) (views_is h)) result out.new × (result ≤ at + 68) }
{
    if left {
        return text::write_text(out, at, b"left\n");
    }
    if !stands {
        return put_entered(out, at, h);
    }
    put_stands(out, at, t.word())
}

// The wished view, in at most 68 bytes.
fn put_wished(out: &mut [u8], at: usize, v: u64) -> usize
    requires { at + 68 ≤ length out.old }
    ensures { Wrote out.old at (wished_line (view_of v)) result out.new × (result ≤ at + 68) }
{
    let a = text::write_text(out, at, b"wished ");
    let b = sets::put_members(out, a, v);
    text::write_text(out, b, b"\n")
}

// The first three lines, in at most 168 bytes.
pub fn put_head(
    out: &mut [u8],
    k: u8,
    left: bool,
    stands: bool,
    t: View,
    h: History,
    wished: u64,
) -> usize
    requires { 168 ≤ length out.old }
    ensures { Wrote out.old 0 (head_text k left stands (view_is t) (views_is h) (view_of wished)) result out.new × (result ≤ 168) }
{
    let a = put_number(out, 0, k);
    let b = put_place(out, a, left, stands, t, h);
    put_wished(out, b, wished)
}

// The first n views of a list as the candidates, or that there are too many, in at most 155 bytes.
pub fn put_candidates(
    out: &mut [u8],
    at: usize,
    many: bool,
    list: &[u64; View::LIMIT],
    n: usize,
) -> usize
    requires { (many ≡ false → n ≤ 16) × (at + 155 ≤ length out.old) }
    ensures { Wrote out.old at (candidates_line many (views_of list.now n)) result out.new × (result ≤ at + 155) }
{
    if many {
        return text::write_text(out, at, b"candidates: more than 16\n");
    }
    let a = text::write_text(out, at, b"candidates");
    let b = sets::put_views(out, a, list, n);
    text::write_text(out, b, b"\n")
}

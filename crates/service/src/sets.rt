// Sets of controllers and views, as the service screen writes them. A view is a word.
ghost use Rattle.std.specs.Prelude.{◌≡◌, ◌∷◌, ◌+◌, ◌*◌, ◌<◌, ◌≤◌, length};
ghost use Rattle.protocol.specs.Sets.{bit};
ghost use Rattle.text.specs.Text.{dec_text};
ghost use Rattle.text.specs.Written.{Wrote};
ghost use Rattle.statements.specs.Text.{view_text};
ghost use Rattle.views.specs.View.{view_of, views_of};
ghost use Rattle.service.specs.Service.{numbers_below, numbers_text, set_text, members_text, views_text};

use views::View;

const SPACE: u8 = b' ';

const CONTROLLERS: usize = View::WIDTH as usize;

// Digits of a set.
const DIGITS: usize = 4;

// The number of a controller after a space, in at most 3 bytes.
fn put_controller(out: &mut [u8], at: usize, k: usize) -> usize
    requires { (k < 16) × (at + 3 ≤ length out.old) }
    ensures { Wrote out.old at (32 ∷ dec_text k) result out.new × (result ≤ at + 3) }
{
    out[at] = SPACE;
    text::write_dec(out, at + 1, k as u64)
}

// The controllers of a set, in at most 48 bytes.
fn put_controllers(out: &mut [u8], from: usize, set: u32) -> usize
    requires { from + 48 ≤ length out.old }
    ensures { Wrote out.old from (numbers_below 16 (bit set)) result out.new × (result ≤ from + 48) }
{
    let mut at = from;
    for k in 0..CONTROLLERS {
        if !statements::has(set as u64, k) {
            continue;
        }
        at = put_controller(out, at, k);
    }
    at
}

// A colon and the controllers of a set, in at most 49 bytes.
fn put_numbers(out: &mut [u8], at: usize, set: u32) -> usize
    requires { at + 49 ≤ length out.old }
    ensures { Wrote out.old at (numbers_text (bit set)) result out.new × (result ≤ at + 49) }
{
    let a = text::write_text(out, at, b":");
    put_controllers(out, a, set)
}

// A set, in at most 53 bytes.
pub fn put_set(out: &mut [u8], at: usize, set: u32) -> usize
    requires { at + 53 ≤ length out.old }
    ensures { Wrote out.old at (set_text set) result out.new × (result ≤ at + 53) }
{
    let a = text::write_hex(out, at, set as u64, DIGITS);
    put_numbers(out, a, set)
}

// The eight digits of a view.
pub fn put_view(out: &mut [u8], at: usize, v: u64) -> usize
    requires { at + 8 ≤ length out.old }
    ensures { Wrote out.old at (view_text (view_of v)) result out.new × (result ≡ at + 8) }
{
    let a = text::write_hex(out, at, views::low_half(v) as u64, DIGITS);
    text::write_hex(out, a, views::high_half(v) as u64, DIGITS)
}

// A view with its members, in at most 57 bytes.
pub fn put_members(out: &mut [u8], at: usize, v: u64) -> usize
    requires { at + 57 ≤ length out.old }
    ensures { Wrote out.old at (members_text (view_of v)) result out.new × (result ≤ at + 57) }
{
    let a = put_view(out, at, v);
    put_numbers(out, a, View::of_word(v).members())
}

// A view after a space.
fn put_listed(out: &mut [u8], at: usize, v: u64) -> usize
    requires { at + 9 ≤ length out.old }
    ensures { Wrote out.old at (32 ∷ view_text (view_of v)) result out.new × (result ≡ at + 9) }
{
    out[at] = SPACE;
    put_view(out, at + 1, v)
}

// The first n views of a list, each after a space.
pub fn put_views(out: &mut [u8], from: usize, list: &[u64; View::LIMIT], n: usize) -> usize
    requires { (n ≤ 16) × (from + 9 * n ≤ length out.old) }
    ensures { Wrote out.old from (views_text (views_of list.now n)) result out.new × (result ≡ from + 9 * n) }
{
    let mut at = from;
    for v in &list[..n] {
        at = put_listed(out, at, *v);
    }
    at
}

// Words and numbers written onto a page, one behind the other.
ghost use Rattle.std.specs.Prelude.{◌≡◌, ◌+◌, ◌<◌, ◌≤◌, length};
ghost use Rattle.listing.specs.Text.{last_digit, decimal};
ghost use Rattle.listing.specs.Listing.{field};
ghost use Rattle.sheet.specs.Put.{HasRoom, Appended};
ghost use Rattle.listing.specs.Put.{max_digits};

use super::width::width;
use sheet::put::Page;

// A number in decimal (S10.4).
fn put_number(page: &mut Page, x: u64)
    requires { HasRoom page.old (length (decimal x)) }
    ensures { Appended page.old page.new (decimal x) }
{
    let end = page.end + width(x);
    put_digits(&mut page.out[page.end..end], x);
    page.end = end;
}

// A word, and a number behind it.
pub(crate) fn put_field(page: &mut Page, word: &[u8], x: u64)
    requires { HasRoom page.old (length word.now + max_digits) }
    ensures appended { Appended page.old page.new (field word.now x) }
    ensures upper_bound { page.new.end ≤ page.old.end + length word.now + max_digits }
{
    page.bytes(word);
    put_number(page, x);
}

// The last digit of a number.
fn last_digit(x: u64) -> u8
    ensures { result ≡ last_digit x }
{
    (48 + x % 10) as u8
}

// The digits of a number, which fill the slice: they go into their places from the last to the first. By index: of what is written through
// a reversed `iter_mut` no contract speaks.
pub(crate) fn put_digits(out: &mut [u8], x: u64)
    requires { length out.old ≡ length (decimal x) }
    ensures { out.new ≡ decimal x }
{
    let mut rest = x;
    for i in (0..out.len()).rev() {
        out[i] = last_digit(rest);
        rest /= 10;
    }
}

// The program `price` (S10): prices a sheet from a file or from standard input.
#![tactic(auto)]

mod input; // input.rt: reading a sheet
mod output; // output.rt: the listing, and what is said on standard error
mod words; // words.rt: how the program is used, its version, and why a sheet is refused

ghost use Rattle.std.specs.Prelude.{◌≡◌, ◌↔◌, IsTrue};
ghost use Rattle.listing.specs.Text.{ascii};

use input::read;
use listing::{ENOUGH, list};
use model::{MAX_BYTES, MAX_STATES};
use output::{explain, fail, fail_unless, write};
use sheet::numbers::byte_at;
use std::env::{Env, FillError};
use std::io::Read;
use std::rt::Files;
use std::{fs, io, str};
use words::{usage, version};

// The most bytes of a name that is read, as many as Linux allows a path.
const MAX_NAME: usize = 4096;

// The number by which Linux says that a name is too long, and the one by which it says that bytes are no text.
const NAME_TOO_LONG: i32 = 36;

const NOT_TEXT: i32 = 84;

// Lists a sheet (S10.2, S10.3), and explains its refusal (S10.5). The buffer has room for every listing, so it is never too short.
fn price(output: &impl Print, errors: &impl Print, sheet: &mut [u8]) {
    let tag = byte_at(sheet, 0);
    let mut table = [0u32; MAX_STATES];
    let mut out = [0u8; ENOUGH];
    if let Some(listing) = list(sheet, &mut table, &mut out) {
        write(output, errors, &out[..listing.length]);
        explain(errors, listing.outcome, tag);
    }
}

// Prices what an open file holds (S10.1). One byte more is read than a sheet may have, so that a longer one is refused (S10.7). Where a
// read fails, nothing is priced, and standard error says why, by the input's name (S10.6).
fn price_open(output: &impl Print, errors: &impl Print, from: &mut impl Read, name: &[u8]) {
    let mut sheet = [0u8; MAX_BYTES + 1];
    match read(from, &mut sheet) {
        Ok(n) => price(output, errors, &mut sheet[..n]),
        Err(error) => fail(errors, name, &error),
    }
}

// Opens the file of a name. The standard library opens only names that are text in UTF-8.
fn open<R: Files>(rt: &R, name: &[u8]) -> io::Result<R::File> {
    let path = str::from_utf8(name).map_err(|_| io::Error::from_raw_os_error(NOT_TEXT))?;
    fs::open(rt, path)
}

// Prices the file of a name, or says why it cannot be opened (S10.1, S10.6).
fn price_file(rt: &impl Files, output: &impl Print, errors: &impl Print, name: &[u8]) {
    match open(rt, name) {
        Ok(mut file) => price_open(output, errors, &mut file, name),
        Err(error) => fail(errors, name, &error),
    }
}

// Is this the argument that asks how the program is used (S10.8)?
fn asks_usage(arg: &[u8]) -> bool
    ensures { IsTrue result ↔ arg.now ≡ ascii "--help" }
{
    arg == b"--help".as_slice()
}

// Is this the argument that asks for the version (S10.11)?
fn asks_version(arg: &[u8]) -> bool
    ensures { IsTrue result ↔ arg.now ≡ ascii "--version" }
{
    arg == b"--version".as_slice()
}

// Was the program started with an argument of this number? The program's own name has number 0.
fn has_argument(rt: &impl Env, i: usize) -> bool {
    let mut none = [0u8; 0];
    !matches!(rt.arg(i, &mut none), Err(FillError::NotPresent))
}

// What the only argument asks for: how the program is used, its version, or the file of that name (S10.1, S10.8, S10.11). A name that the
// buffer cannot hold is longer than any that can be opened.
fn answer_argument(rt: &(impl Env + Files), output: &impl Print, errors: &impl Print) {
    let mut name = [0u8; MAX_NAME];
    match rt.arg(1, &mut name) {
        Ok(n) => {
            if asks_usage(&name[..n]) {
                fail_unless(errors, usage(output));
            } else if asks_version(&name[..n]) {
                fail_unless(errors, version(output));
            } else {
                price_file(rt, output, errors, &name[..n]);
            }
        }
        Err(_) => {
            let error = io::Error::from_raw_os_error(NAME_TOO_LONG);
            fail(errors, b"the file's name", &error);
        }
    }
}

// Goes by the number of arguments, the program's own name among them (S10.1, S10.8).
fn main(rt: HostRuntime) {
    let output = rt.stdout();
    let errors = rt.stderr();
    if !has_argument(&rt, 1) {
        price_open(&output, &errors, &mut rt.stdin(), b"standard input");
    } else if !has_argument(&rt, 2) {
        answer_argument(&rt, &output, &errors);
    } else {
        let _ = usage(&errors);
    }
}

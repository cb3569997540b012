// How the program is used, its version, and why a sheet is refused, in words.
use model::format;
use std::io;

// Writes how the program is used (S10.8), or answers why not all of it was written.
pub(crate) fn usage(to: &impl Print) -> io::Result<()> {
    to.write_all(
        b"usage: price [FILE]
       price --help
       price --version

Prices the fault sheet in FILE, or the one on standard input: the least cost for
which the fault can be cleared, however the findings fall (a worst sheet) or
with all of them done (a whole sheet), and the plan that costs it. FILE stays as
it is. Any other argument is a file's name, also `-`.

Line one is the outcome (settled, over or none), the price in cents, passes and
raises. Where it is settled, a line follows for each stage that the plan
reaches: its number, its check or `end`, its value, and for a check `by` and the
stage that the dearest of its findings leads to. `over` says that every plan
costs 1,000,000,000 cents or more, `none` that every plan comes to a junction
without checks. A sheet that is refused gets `refused` and the number of the
question that it fails, which is explained on standard error. So does a draft, a
sheet whose findings may be any of its stages: it is to be rearranged first.

Every stage has a value, which never exceeds its least cost. A raise is one
increase of a value, a pass one visit to the start. Nothing is printed before
the last pass. Few sheets take a second, but one with 2,000 junctions and checks
that cost nearly the same can take billions of raises: minutes.

The exit status is always 0, unless a signal ends the program. A script asks

    price FILE | grep -q '^settled '

or, with pipefail, where the pipe that grep closes may count as a failure,

    [[ $(price FILE) == settled\\ * ]]

What cannot be read or written is said on standard error.

The specification, SPEC.md, has it all in section S10. It is installed in
share/doc/ldfs.
",
    )
}

// Writes the version (S10.11), which is that of the C header, or answers why not all of it was written.
pub(crate) fn version(to: &impl Print) -> io::Result<()> {
    to.write_all(b"price 2.4.0\n")
}

// Why a sheet that begins with this tag has no head (S4.3): a draft is to be rearranged first (S13.1).
fn head_words(to: &impl Print, tag: u8) -> io::Result<()> {
    if tag == format::DRAFT_TAG {
        to.write_all(
            b" (S4.3): the head has tag 06, so this is a draft, which is to be rearranged first (ldfs_rearrange)\n",
        )
    } else {
        to.write_all(
            b" (S4.3): there is no head, or its kind, number of stages or start is out of range\n",
        )
    }
}

// Writes the id of the question with this number and what its "no" means (S4, S10.5), and ends the line; `tag` is the sheet's first byte. A
// number that no question has gets no words.
pub(crate) fn words(to: &impl Print, n: u32, tag: u8) -> io::Result<()> {
    match n {
        1 => to.write_all(b" (S4.1): the index table has no room for 4,096 entries\n"),
        2 => to.write_all(b" (S4.2): the sheet's size is not 17 to 60,000 bytes\n"),
        3 => head_words(to, tag),
        4 => to.write_all(
            b" (S4.4): the fields behind the head are not exactly its stages, whole and in order\n",
        ),
        5 => to.write_all(
            b" (S4.5): a cost, a value, a mark or a chosen check is out of its range\n",
        ),
        6 => to.write_all(
            b" (S4.6): findings are not ascending (strictly on a worst sheet), above their junction and below the number of stages\n",
        ),
        7 => to.write_all(
            b" (S4.7): a value is above the cost of its ending, or above the price of a check of its junction\n",
        ),
        8 => to.write_all(
            b" (S4.8): a mark says settled, and the stage's value or a finding of its chosen check does not\n",
        ),
        9 => to.write_all(b" (S4.9): the budget is 0\n"),
        10 => to.write_all(
            b" (S4.10): a counted junction writes another number of checks than follow it\n",
        ),
        _ => to.write_all(b"\n"),
    }
}

// How many digits a number has, from a table of the powers of ten (S10.10).
ghost use Rattle.std.specs.Prelude.{◌≡◌};
ghost use Rattle.listing.specs.Width.{width_of};
ghost use Rattle.listing.specs.Put.{up_to};

// The powers of ten that fit 64 bits.
const POWERS: [u64; 20] = [
    1,
    10,
    100,
    1000,
    10000,
    100000,
    1000000,
    10000000,
    100000000,
    1000000000,
    10000000000,
    100000000000,
    1000000000000,
    10000000000000,
    100000000000000,
    1000000000000000,
    10000000000000000,
    100000000000000000,
    1000000000000000000,
    10000000000000000000,
];

// How many entries of a table, from its first on, are at most a number.
#[tactic(auto, unfolding(crate::specs::Put::up_to))]
fn entries(table: &[u64], x: u64) -> usize
    ensures { result ≡ up_to x table.now }
{
    table.iter().take_while(|&&entry| entry <= x).count()
}

// A number's width (S10.10): how many entries are at most the number, and 1 for 0. Entries ascend, so the first above the number ends the
// count.
pub(crate) fn width(x: u64) -> usize
    ensures { result ≡ width_of x }
{
    entries(&POWERS, x).max(1)
}

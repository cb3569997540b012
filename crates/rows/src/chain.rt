// The junctions of the chain of S11.13.
use super::bytes::Sheet;
use super::words::slip;

// Writes the junctions of a chain of 999 of cost 1,000,000, each with its value and with its check, whose finding is the next stage. The
// ending behind them costs `cost`. More than an ending may cost is a slip.
pub(crate) fn chain(rt: &impl Print, sheet: &mut Sheet, cost: u64) {
    if cost > 1_000_000 {
        slip(rt);
        return;
    }
    for next in 1..1000u16 {
        let value = (1000 - u32::from(next)) * 1_000_000 + cost as u32;
        sheet.extend(rt, b"\x03\x00\x06");
        sheet.extend(rt, &value.to_be_bytes());
        sheet.extend(rt, b"\x00\x00");
        sheet.extend(rt, b"\x04\x00\x06");
        sheet.extend(rt, &1_000_000u32.to_be_bytes());
        sheet.extend(rt, &next.to_be_bytes());
    }
}

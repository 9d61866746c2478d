// The bytes of a record, piece by piece.
ghost use Rattle.std.specs.Prelude.{◌≡◌, ◌<◌, Some, None, MatchOption, nat_lt};
ghost use Rattle.rooms.specs.Record.{mark_at, MarksOk, LowestWrongMark, cell_in, nine_for, latches_in, byte_of};

pub(crate) const CELLS: usize = 32;

pub(crate) const LATCHES: usize = 4;

// The bytes of a cell: eight of its number, and then its mark.
pub(crate) const CELL_BYTES: usize = 9;

const MARK: usize = 8;

pub(crate) const LATCH_BYTE: usize = CELLS * CELL_BYTES;

pub(crate) const LENGTH: usize = LATCH_BYTE + 1;

// The lowest cell whose mark is above 1.
pub(crate) fn wrong_mark(bytes: &[u8; LENGTH]) -> Option<usize>
    ensures { MatchOption result (MarksOk bytes.now) (λ c. LowestWrongMark bytes.now c) }
{
    (0..CELLS).find(|c| has_wrong_mark(bytes, *c))
}

fn has_wrong_mark(bytes: &[u8; LENGTH], c: usize) -> bool
    requires { c < 32 }
    ensures { result ≡ nat_lt 1 (mark_at bytes.now c) }
{
    bytes[CELL_BYTES * c + MARK] > 1
}

// What nine bytes say of a cell.
pub(crate) fn cell_in(nine: &[u8; CELL_BYTES]) -> Option<i64>
    ensures { result ≡ cell_in nine.now }
{
    match *nine {
        [a, b, c, d, e, f, g, h, 1] => Some(i64::from_be_bytes([a, b, c, d, e, f, g, h])),
        _ => None,
    }
}

// The nine bytes of a cell, which say what it holds.
pub(crate) fn nine_for(v: Option<i64>) -> [u8; CELL_BYTES]
    ensures value { result ≡ nine_for v }
    ensures says { cell_in result ≡ v }
{
    match v {
        Some(n) => {
            let [a, b, c, d, e, f, g, h] = n.to_be_bytes();
            [a, b, c, d, e, f, g, h, 1]
        }
        None => [0; CELL_BYTES],
    }
}

// Latch k is bit k. Here and in `byte_of` each bit is written out, as in the table of the format.
pub(crate) fn latches_in(byte: u8) -> [bool; LATCHES]
    ensures { result ≡ latches_in byte }
{
    [
        byte % 2 == 1,
        byte / 2 % 2 == 1,
        byte / 4 % 2 == 1,
        byte / 8 % 2 == 1,
    ]
}

pub(crate) fn byte_of(latches: [bool; LATCHES]) -> u8
    ensures { result ≡ byte_of latches }
{
    let [a, b, c, d] = latches;
    u8::from(a) + 2 * u8::from(b) + 4 * u8::from(c) + 8 * u8::from(d)
}

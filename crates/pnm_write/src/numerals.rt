//! Numbers in lines, from a table of the texts of small ones.

ghost use Rattle.std.specs.Prelude.{◌≡◌, ◌+◌, ◌-◌, ◌*◌, ◌<◌, ◌≤◌, nat_le, if◌then◌else◌, ◌∷◌, ◌++◌, length, take};
ghost use Rattle.std.specs.Prelude.{decimal, map, slice_set};
ghost use Rattle.pnm_image.specs.declared.shape.Kind.{Kind};
ghost use Rattle.pnm_write.specs.Internal.Numerals.{IsEntry, three_digits};
ghost use Rattle.std.specs.Str.{byte};
ghost use Rattle.pnm_write.specs.PlainRows.{max_line_length};
ghost use Rattle.pnm_write.specs.Internal.PlainParts.{text_of_part, column_after_part, sample_texts};

use pnm_samples::Sample;

/// The most bytes of a line without its LF.
pub const MAX_LINE_LENGTH: usize = 70;

/// For each number up to 255, how many bytes a blank and its text have, and then these bytes, filled up with blanks.
const ENTRIES: &[u8; 1280] = b"\
    2 0  2 1  2 2  2 3  2 4  2 5  2 6  2 7  2 8  2 9  3 10 3 11 3 12 3 13 3 14 3 15 \
    3 16 3 17 3 18 3 19 3 20 3 21 3 22 3 23 3 24 3 25 3 26 3 27 3 28 3 29 3 30 3 31 \
    3 32 3 33 3 34 3 35 3 36 3 37 3 38 3 39 3 40 3 41 3 42 3 43 3 44 3 45 3 46 3 47 \
    3 48 3 49 3 50 3 51 3 52 3 53 3 54 3 55 3 56 3 57 3 58 3 59 3 60 3 61 3 62 3 63 \
    3 64 3 65 3 66 3 67 3 68 3 69 3 70 3 71 3 72 3 73 3 74 3 75 3 76 3 77 3 78 3 79 \
    3 80 3 81 3 82 3 83 3 84 3 85 3 86 3 87 3 88 3 89 3 90 3 91 3 92 3 93 3 94 3 95 \
    3 96 3 97 3 98 3 99 4 1004 1014 1024 1034 1044 1054 1064 1074 1084 1094 1104 111\
    4 1124 1134 1144 1154 1164 1174 1184 1194 1204 1214 1224 1234 1244 1254 1264 127\
    4 1284 1294 1304 1314 1324 1334 1344 1354 1364 1374 1384 1394 1404 1414 1424 143\
    4 1444 1454 1464 1474 1484 1494 1504 1514 1524 1534 1544 1554 1564 1574 1584 159\
    4 1604 1614 1624 1634 1644 1654 1664 1674 1684 1694 1704 1714 1724 1734 1744 175\
    4 1764 1774 1784 1794 1804 1814 1824 1834 1844 1854 1864 1874 1884 1894 1904 191\
    4 1924 1934 1944 1954 1964 1974 1984 1994 2004 2014 2024 2034 2044 2054 2064 207\
    4 2084 2094 2104 2114 2124 2134 2144 2154 2164 2174 2184 2194 2204 2214 2224 223\
    4 2244 2254 2264 2274 2284 2294 2304 2314 2324 2334 2344 2354 2364 2374 2384 239\
    4 2404 2414 2424 2434 2444 2454 2464 2474 2484 2494 2504 2514 2524 2534 2544 255\
";

/// Returns the entry of a number.
#[inline(always)]
fn entry(number: usize) -> &'static [u8]
    requires { number < 256 }
    ensures { IsEntry number result.now }
{
    let entries = &ENTRIES[..];
    &entries[5 * number..5 * number + 5]
}

/// Puts four bytes into the buffer. All are read before one is written, so that they are moved as one word.
#[inline(always)]
pub fn put_four(buffer: &mut [u8], at: usize, bytes: &[u8])
    requires buffer { at + 4 ≤ length buffer.old }
    requires enough { 4 ≤ length bytes.now }
    ensures { take (at + 4) buffer.new ≡ take at buffer.old ++ take 4 bytes.now }
{
    let first = bytes[0];
    let second = bytes[1];
    let third = bytes[2];
    let fourth = bytes[3];
    buffer[at] = first;
    buffer[at + 1] = second;
    buffer[at + 2] = third;
    buffer[at + 3] = fourth;
}

/// Puts a blank and a small number into the buffer, and returns how many bytes these are.
#[inline(always)]
fn put_small(buffer: &mut [u8], at: usize, number: usize) -> usize
    requires buffer { at + 4 ≤ length buffer.old }
    requires range { number < 256 }
    ensures text { take (at + result) buffer.new ≡ take at buffer.old ++ byte " " ∷ decimal number }
    ensures count { result ≡ 1 + length (decimal number) }
    ensures within { result ≤ 4 }
{
    let entry = entry(number);
    put_four(buffer, at, &entry[1..]);
    usize::from(entry[0] - b'0')
}

/// Puts the last three digits of a number into the buffer.
#[inline(always)]
fn put_three(buffer: &mut [u8], at: usize, number: usize)
    requires buffer { at + 3 ≤ length buffer.old }
    requires range { number < 1000 }
    ensures { take (at + 3) buffer.new ≡ take at buffer.old ++ three_digits number }
{
    // The two digits at the end of a number between 100 and 199.
    let entry = entry(100 + number % 100);
    let tens = entry[3];
    let ones = entry[4];
    buffer[at] = b'0' + (number / 100) as u8;
    buffer[at + 1] = tens;
    buffer[at + 2] = ones;
}

/// Puts a blank and a number into the buffer, and returns how many bytes these are.
#[inline(always)]
fn put(buffer: &mut [u8], at: usize, number: usize) -> usize
    requires buffer { at + 6 ≤ length buffer.old }
    requires range { number < 65536 }
    ensures text { take (at + result) buffer.new ≡ take at buffer.old ++ byte " " ∷ decimal number }
    ensures count { result ≡ 1 + length (decimal number) }
    ensures within { result ≤ 6 }
{
    if number < 256 {
        put_small(buffer, at, number)
    } else if number < 1000 {
        buffer[at] = b' ';
        put_three(buffer, at + 1, number);
        4
    } else {
        let size = put_small(buffer, at, number / 1000);
        put_three(buffer, at + size, number % 1000);
        size + 3
    }
}

/// Ends the line before a word if it has no room for the word. The word has `size` bytes, including the blank before
/// it. Returns how many bytes the line has with the word.
#[inline(always)]
fn break_line(buffer: &mut [u8], at: usize, column: usize, size: usize) -> usize
    requires buffer { at < length buffer.old }
    requires line { column ≤ 70 }
    requires some { 0 < size }
    requires size { size ≤ 6 }
    ensures buffer { buffer.new ≡ (if nat_le (column + size) max_line_length then buffer.old
        else slice_set buffer.old at (byte "\n")) }
    ensures column { result ≡ (if nat_le (column + size) max_line_length then column + size else size - 1) }
    ensures line { result ≤ 70 }
    ensures begun { 1 < size → 0 < result }
{
    let whole = column + size;
    if whole <= MAX_LINE_LENGTH {
        whole
    } else {
        buffer[at] = b'\n';
        size - 1
    }
}

/// A sample as a number in a line.
pub trait Numeral: Sample {
    /// Returns the number that it is.
    fn number(self) -> u16
        ensures { result ≡ Self.value self };

    /// Puts a blank and the number into the buffer, and returns how many bytes these are.
    fn put(self, buffer: &mut [u8], at: usize) -> usize
        requires { at + 6 ≤ length buffer.old }
        ensures text { take (at + result) buffer.new ≡ take at buffer.old ++ byte " " ∷ decimal (Self.value self) }
        ensures count { result ≡ 1 + length (decimal (Self.value self)) }
        ensures some { 1 < result }
        ensures within { result ≤ 6 };
}

impl Numeral for u8 {
    #[inline(always)]
    fn number(self) -> u16 {
        u16::from(self)
    }

    #[inline(always)]
    #[tactic(auto, using(std::proofs::lemmas::Fmt::decimal_nonempty))]
    fn put(self, buffer: &mut [u8], at: usize) -> usize {
        put_small(buffer, at, usize::from(self))
    }
}

impl Numeral for u16 {
    #[inline(always)]
    fn number(self) -> u16 {
        self
    }

    #[inline(always)]
    #[tactic(auto, using(std::proofs::lemmas::Fmt::decimal_nonempty))]
    fn put(self, buffer: &mut [u8], at: usize) -> usize {
        put(buffer, at, usize::from(self))
    }
}

/// Puts numbers after the first `start` bytes of the buffer, in a line that has begun. Returns how many bytes the
/// buffer has then, and how many the line has.
pub fn append_numbers<N: Numeral>(
    buffer: &mut [u8],
    start: usize,
    column: usize,
    numbers: &[N],
) -> (usize, usize)
    requires buffer { start + 6 * length numbers.now ≤ length buffer.old }
    requires begun { 0 < column }
    requires line { column ≤ 70 }
    ensures text { take result.0 buffer.new
        ≡ take start buffer.old ++ text_of_part column (sample_texts Kind.Gray (map N.value numbers.now)) }
    ensures within { result.0 ≤ start + 6 * length numbers.now }
    ensures column { result.1 ≡ column_after_part column (sample_texts Kind.Gray (map N.value numbers.now)) }
    ensures line { result.1 ≤ 70 }
{
    let mut end = start;
    let mut at = column;
    for number in numbers {
        let size = number.put(buffer, end);
        at = break_line(buffer, end, at, size);
        end += size;
    }
    (end, at)
}

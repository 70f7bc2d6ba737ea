//! Rows of sixteen numbers as bytes. Most numbers of a note are 0 or small, so a row has each number in as many bytes as it
//! needs. Before them it has how many these are, four bits for each number, so a reader goes from one to the next with no
//! look at them, and skips a row that it does not want by these alone.
ghost use Rattle.std.specs.Prelude.{◌≡◌, ◌+◌, ◌*◌, ◌<◌, ◌≤◌, ◌++◌, true, length, take, drop, get_or, ℕ};
ghost use Rattle.co_packed.specs.Numbers.{width, bytes_of, value};
ghost use Rattle.co_packed.specs.Rows.{FourPut, row_bytes, numbers_in, row_in, size_in, row_size, after_row, IsRow};

use crate::numbers::{number_at, put_word, width_of, word_at};

/// Puts a number at `at`, with all its bytes, and gives its width: how many of them it needs.
#[inline(always)]
fn put_number(buffer: &mut [u8; 136], at: usize, number: u64) -> u64
    requires { at ≤ 128 }
    ensures width { result ≡ width number }
    ensures few { result ≤ 8 }
    ensures written { take (at + 8) buffer.new ≡ take at buffer.old ++ bytes_of 8 number }
{
    put_word(buffer, at, number);
    width_of(number)
}

/// Puts the four numbers from `from` on at `at`, and gives their widths, four bits each, and where they end. Each is put there
/// with all its bytes, of which the next one takes those that are not needed.
#[inline(always)]
fn put_four(buffer: &mut [u8; 136], at: usize, numbers: &[u64; 16], from: usize) -> (u64, usize)
    requires low { at ≤ 104 }
    requires within { from ≤ 12 }
    ensures { FourPut numbers.now from at buffer.old buffer.new result.0 result.1 }
{
    let first = put_number(buffer, at, numbers[from]);
    let second_at = at + first as usize;
    let second = put_number(buffer, second_at, numbers[from + 1]);
    let third_at = second_at + second as usize;
    let third = put_number(buffer, third_at, numbers[from + 2]);
    let fourth_at = third_at + third as usize;
    let fourth = put_number(buffer, fourth_at, numbers[from + 3]);
    (
        first + 16 * second + 256 * third + 4096 * fourth,
        fourth_at + fourth as usize,
    )
}

/// The same of numbers that often are all 0.
#[inline(always)]
#[tactic(auto, using(crate::proofs::Widths::zeros_put, crate::proofs::Widths::zero_widths))]
fn put_four_if_some(
    buffer: &mut [u8; 136],
    at: usize,
    numbers: &[u64; 16],
    from: usize,
) -> (u64, usize)
    requires low { at ≤ 104 }
    requires within { from ≤ 12 }
    ensures { FourPut numbers.now from at buffer.old buffer.new result.0 result.1 }
{
    if are_zero(numbers, from) {
        (0, at)
    } else {
        put_four(buffer, at, numbers, from)
    }
}

/// Whether the four numbers from `from` on are 0.
#[inline(always)]
fn are_zero(numbers: &[u64; 16], from: usize) -> bool
    requires { from ≤ 12 }
    ensures { result ≡ true → (get_or numbers.now from 0 ≡ 0) × (get_or numbers.now (from + 1) 0 ≡ 0) × (get_or numbers.now (from + 2) 0 ≡ 0) × (get_or numbers.now (from + 3) 0 ≡ 0) }
{
    numbers[from] == 0 && numbers[from + 1] == 0 && numbers[from + 2] == 0 && numbers[from + 3] == 0
}

/// Puts the bytes of a row at the front of the buffer, and gives how many they are.
#[inline]
#[tactic(auto, unfolding(crate::specs::Rows::row_bytes))]
pub(crate) fn write_row(buffer: &mut [u8; 136], numbers: &[u64; 16]) -> usize
    ensures written { take result buffer.new ≡ row_bytes numbers.now }
    ensures bounded { result ≤ 136 }
    ensures row { IsRow numbers.now }
{
    let (first, second_at) = put_four(buffer, 8, numbers, 0);
    let (second, third_at) = put_four(buffer, second_at, numbers, 4);
    let (third, fourth_at) = put_four_if_some(buffer, third_at, numbers, 8);
    let (fourth, end) = put_four_if_some(buffer, fourth_at, numbers, 12);
    let lower = first + 0x1_0000 * second;
    let upper = third + 0x1_0000 * fourth;
    put_word(buffer, 0, lower + 0x1_0000_0000 * upper);
    end
}

/// As many bytes as a row may have, were all widths as great as four bits can say, and as a look at eight bytes may reach.
const ROOM: usize = 256;

/// Four numbers from `at` on, by the lowest four widths, and where they end.
#[inline]
fn four_at(bytes: &[u8], at: usize, widths: u64) -> ([u64; 4], usize)
    requires { at + 64 ≤ length bytes.now }
    ensures numbers { result.0 ≡ numbers_in 4 widths (drop at bytes.now) }
    ensures end { result.1 ≡ at + size_in 4 widths }
    ensures bounded { result.1 ≤ at + 60 }
{
    let first = (widths % 16) as usize;
    let second = (widths / 16 % 16) as usize;
    let third = (widths / 256 % 16) as usize;
    let fourth = (widths / 4096 % 16) as usize;
    let second_at = at + first;
    let third_at = second_at + second;
    let fourth_at = third_at + third;
    let numbers = [
        number_at(bytes, at, first),
        number_at(bytes, second_at, second),
        number_at(bytes, third_at, third),
        number_at(bytes, fourth_at, fourth),
    ];
    (numbers, fourth_at + fourth)
}

/// Reads the row that the bytes begin with to where it is wanted, and gives how many bytes it has.
#[inline]
#[tactic(auto, unfolding(crate::specs::Rows::row_in, crate::specs::Rows::row_size))]
fn row_within(bytes: &[u8], row: &mut [u64; 16]) -> usize
    requires { 256 ≤ length bytes.now }
    ensures row { row.new ≡ row_in bytes.now }
    ensures size { result ≡ row_size bytes.now }
{
    let widths = word_at(bytes, 0);
    let (head, second_at) = four_at(bytes, 8, widths);
    let (second, third_at) = four_at(bytes, second_at, widths / 0x1_0000);
    let (third, fourth_at) = four_at(bytes, third_at, widths / 0x1_0000_0000);
    let (fourth, end) = four_at(bytes, fourth_at, widths / 0x1_0000_0000_0000);
    *row = [
        head[0], head[1], head[2], head[3], second[0], second[1], second[2], second[3], third[0],
        third[1], third[2], third[3], fourth[0], fourth[1], fourth[2], fourth[3],
    ];
    end
}

/// The first four numbers of the row that the bytes begin with, and how many bytes the row has.
#[inline]
#[tactic(auto, unfolding(crate::specs::Rows::row_in, crate::specs::Rows::row_size))]
fn front_within(bytes: &[u8]) -> ([u64; 4], usize)
    requires { 256 ≤ length bytes.now }
    ensures front { result.0 ≡ take 4 (row_in bytes.now) }
    ensures size { result.1 ≡ row_size bytes.now }
{
    let widths = word_at(bytes, 0);
    let (front, _) = four_at(bytes, 8, widths);
    (front, 8 + size_of(widths))
}

/// Puts bytes in the place of the first ones.
fn put_first(room: &mut [u8; 256], bytes: &[u8])
    requires { length bytes.now < 256 }
    ensures { room.new ≡ bytes.now ++ drop (length bytes.now) room.old }
{
    room[..bytes.len()].copy_from_slice(bytes);
}

/// Fewer bytes, with zeros behind them. Only the last rows of a list want it.
#[inline(never)]
fn with_room(bytes: &[u8]) -> [u8; 256]
    requires { length bytes.now < 256 }
    ensures { (i : ℕ) → get_or result i 0 ≡ get_or bytes.now i 0 }
{
    let mut room = [0; ROOM];
    put_first(&mut room, bytes);
    room
}

/// Reads the row that the bytes begin with to where it is wanted, and gives how many bytes it has. Bytes that are missing
/// count as 0.
#[inline]
pub(crate) fn row_at(bytes: &[u8], row: &mut [u64; 16]) -> usize
    ensures row { row.new ≡ row_in bytes.now }
    ensures size { result ≡ row_size bytes.now }
{
    if bytes.len() >= ROOM {
        row_within(bytes, row)
    } else {
        last_row(bytes, row)
    }
}

/// The same where fewer bytes are left than a look may reach. Only the last rows of a list want it.
#[inline(never)]
fn last_row(bytes: &[u8], row: &mut [u64; 16]) -> usize
    requires { length bytes.now < 256 }
    ensures row { row.new ≡ row_in bytes.now }
    ensures size { result ≡ row_size bytes.now }
{
    row_within(&with_room(bytes), row)
}

/// The first four numbers of the row that the bytes begin with, and how many bytes the row has. Bytes that are missing count
/// as 0.
#[inline]
pub(crate) fn front_at(bytes: &[u8]) -> ([u64; 4], usize)
    ensures front { result.0 ≡ take 4 (row_in bytes.now) }
    ensures size { result.1 ≡ row_size bytes.now }
{
    if bytes.len() >= ROOM {
        front_within(bytes)
    } else {
        last_front(bytes)
    }
}

/// The same where fewer bytes are left than a look may reach.
#[inline(never)]
fn last_front(bytes: &[u8]) -> ([u64; 4], usize)
    requires { length bytes.now < 256 }
    ensures front { result.0 ≡ take 4 (row_in bytes.now) }
    ensures size { result.1 ≡ row_size bytes.now }
{
    front_within(&with_room(bytes))
}

/// The first eight bytes as a number. Bytes that are missing count as 0.
#[inline]
fn widths_at(bytes: &[u8]) -> u64
    ensures { result ≡ value 8 bytes.now }
{
    if bytes.len() >= 8 {
        word_at(bytes, 0)
    } else {
        word_at(&with_room(bytes), 0)
    }
}

/// The sum of sixteen widths. The two of each byte are added first, and what is left of a number by 255 is the sum of its
/// bytes, where that is less.
#[inline]
fn size_of(word: u64) -> usize
    ensures value { result ≡ size_in 16 word }
    ensures bounded { result < 256 }
{
    let pairs = (word & 0x0f0f_0f0f_0f0f_0f0f) + (word / 16 & 0x0f0f_0f0f_0f0f_0f0f);
    (pairs % 255) as usize
}

/// The bytes from `at` on, if there are any.
#[inline]
pub(crate) fn rest_from(bytes: &[u8], at: usize) -> &[u8]
    ensures { result.now ≡ drop at bytes.now }
{
    if at <= bytes.len() { &bytes[at..] } else { &[] }
}

/// The bytes after the row that they begin with.
#[inline]
#[tactic(auto, unfolding(crate::specs::Rows::after_row, crate::specs::Rows::row_size))]
pub(crate) fn after_row(bytes: &[u8]) -> &[u8]
    ensures { result.now ≡ after_row bytes.now }
{
    rest_from(bytes, 8 + size_of(widths_at(bytes)))
}

//! The last bytes of a page, kept back until there are many.
ghost use Rattle.std.specs.Prelude.{◌≡◌, ◌+◌, ◌/◌, ◌%◌, ◌≤◌, ◌<◌, ◌++◌, ◌∷◌, [], decimal, length, MatchBool};
ghost use Rattle.co_text.specs.Written.{pair_word, four_word, last_four, last_eight};

use std::marker::Model;

/// The last digit of a number.
#[inline(always)]
fn digit(number: u32) -> u8
    ensures { result ≡ 48 + number % 10 }
{
    b'0' + (number % 10) as u8
}

/// The words of two digits, by their number: the ten stands in the lowest byte.
const PAIRS: [u16; 100] = [
    0x3030, 0x3130, 0x3230, 0x3330, 0x3430, 0x3530, 0x3630, 0x3730, 0x3830, 0x3930, 0x3031, 0x3131,
    0x3231, 0x3331, 0x3431, 0x3531, 0x3631, 0x3731, 0x3831, 0x3931, 0x3032, 0x3132, 0x3232, 0x3332,
    0x3432, 0x3532, 0x3632, 0x3732, 0x3832, 0x3932, 0x3033, 0x3133, 0x3233, 0x3333, 0x3433, 0x3533,
    0x3633, 0x3733, 0x3833, 0x3933, 0x3034, 0x3134, 0x3234, 0x3334, 0x3434, 0x3534, 0x3634, 0x3734,
    0x3834, 0x3934, 0x3035, 0x3135, 0x3235, 0x3335, 0x3435, 0x3535, 0x3635, 0x3735, 0x3835, 0x3935,
    0x3036, 0x3136, 0x3236, 0x3336, 0x3436, 0x3536, 0x3636, 0x3736, 0x3836, 0x3936, 0x3037, 0x3137,
    0x3237, 0x3337, 0x3437, 0x3537, 0x3637, 0x3737, 0x3837, 0x3937, 0x3038, 0x3138, 0x3238, 0x3338,
    0x3438, 0x3538, 0x3638, 0x3738, 0x3838, 0x3938, 0x3039, 0x3139, 0x3239, 0x3339, 0x3439, 0x3539,
    0x3639, 0x3739, 0x3839, 0x3939,
];

/// Two digits as a word, of which the first is the lowest byte.
#[inline(always)]
fn pair_word(number: u32) -> u32
    requires { number < 100 }
    ensures { result ≡ pair_word number }
{
    u32::from(PAIRS[number as usize])
}

/// Four digits as a word, of which the first is the lowest byte.
#[inline(always)]
fn four_word(number: u32) -> u32
    requires { number < 10000 }
    ensures { result ≡ four_word number }
{
    pair_word(number / 100) + 65_536 * pair_word(number % 100)
}

/// Two digits, of which the first comes first in memory.
#[inline(always)]
fn pair(number: u32) -> [u8; 2]
    requires { number < 100 }
    ensures { result ≡ (48 + number / 10 % 10) ∷ (48 + number % 10) ∷ [] }
{
    // One store: a page that copies bytes stored one by one has to wait for them.
    (pair_word(number) as u16).to_le_bytes()
}

/// Four digits, with zeros in front.
#[inline(always)]
fn last_four(number: u32) -> [u8; 4]
    requires { number < 10000 }
    ensures { result ≡ last_four number }
{
    four_word(number).to_le_bytes()
}

/// Eight digits, with zeros in front.
#[inline(always)]
fn last_eight(number: u32) -> [u8; 8]
    requires { number < 100000000 }
    ensures { result ≡ last_eight number }
{
    let high = u64::from(four_word(number / 10_000));
    let low = u64::from(four_word(number % 10_000));
    (high + 4_294_967_296 * low).to_le_bytes()
}

/// How many bytes are kept back at most.
const ROOM: usize = 512;

/// The last bytes of a page, at most 512. While they have room a word is stored by an instruction or two, with no call and no
/// look at what memory there is. Contracts see the bytes.
#[derive(Drop)]
pub(crate) struct Tail {
    bytes: [u8; ROOM],
    filled: usize,
}

impl Model for Tail {
    ghost use Rattle.std.specs.Prelude.{List, ℕ, take, ◌≤◌};

    ghost Value = { List ℕ };

    ghost view = { λ t. take t.filled t.bytes };

    ghost invariant = { λ t. t.filled ≤ 512 };
}

impl Tail {
    /// No bytes.
    pub(crate) fn empty() -> Tail
        ensures { result ≡ [] }
    {
        Tail {
            bytes: [0; ROOM],
            filled: 0,
        }
    }

    /// Whether there is room for so many bytes more.
    #[inline(always)]
    pub(crate) fn has_room(&self, count: usize) -> bool
        ensures { MatchBool result (length self.now + count ≤ 512) (512 < length self.now + count) }
    {
        count <= ROOM - self.filled
    }

    /// The bytes.
    pub(crate) fn as_slice(&self) -> &[u8]
        ensures { result.now ≡ self.now }
    {
        &self.bytes[..self.filled]
    }

    /// As many bytes as are kept back at most, whatever they are.
    pub(crate) fn room(&self) -> &[u8] {
        self.bytes.as_slice()
    }

    /// Lets all bytes go.
    pub(crate) fn clear(&mut self)
        ensures { self.new ≡ [] }
    {
        self.filled = 0;
    }

    /// Appends a byte.
    #[inline(always)]
    pub(crate) fn push(&mut self, byte: u8)
        requires { length self.old + 1 ≤ 512 }
        ensures { self.new ≡ self.old ++ byte ∷ [] }
    {
        self.bytes[self.filled] = byte;
        self.filled += 1;
    }

    /// Appends these bytes.
    // Most texts are literals: inlined, they are stored with no call.
    #[inline(always)]
    pub(crate) fn put(&mut self, bytes: &[u8])
        requires { length self.old + length bytes.now ≤ 512 }
        ensures { self.new ≡ self.old ++ bytes.now }
    {
        let end = self.filled + bytes.len();
        self.bytes[self.filled..end].copy_from_slice(bytes);
        self.filled = end;
    }

    #[inline(always)]
    #[tactic(auto, using(crate::proofs::Digits::decimal_two))]
    fn two_digits(&mut self, number: u32)
        requires low { 10 ≤ number }
        requires high { number < 100 }
        requires room { length self.old + 2 ≤ 512 }
        ensures digits { self.new ≡ self.old ++ decimal number }
        ensures room { length self.new ≤ length self.old + 2 }
    {
        self.put(pair(number).as_slice());
    }

    #[inline(always)]
    #[tactic(auto, using(crate::proofs::Digits::decimal_three))]
    fn three_digits(&mut self, number: u32)
        requires low { 100 ≤ number }
        requires high { number < 1000 }
        requires room { length self.old + 3 ≤ 512 }
        ensures digits { self.new ≡ self.old ++ decimal number }
        ensures room { length self.new ≤ length self.old + 3 }
    {
        self.put(&last_four(number).as_slice()[1..]);
    }

    /// Four digits, with zeros in front.
    #[inline(always)]
    fn last_four(&mut self, number: u32)
        requires four { number < 10000 }
        requires room { length self.old + 4 ≤ 512 }
        ensures digits { self.new ≡ self.old ++ last_four number }
        ensures room { length self.new ≤ length self.old + 4 }
    {
        self.put(last_four(number).as_slice());
    }

    /// Eight digits, with zeros in front.
    #[inline(always)]
    fn last_eight(&mut self, number: u32)
        requires eight { number < 100000000 }
        requires room { length self.old + 8 ≤ 512 }
        ensures digits { self.new ≡ self.old ++ last_eight number }
        ensures room { length self.new ≤ length self.old + 8 }
    {
        self.put(last_eight(number).as_slice());
    }

    #[inline(always)]
    #[tactic(auto, using(std::proofs::lemmas::Fmt::decimal_digit, crate::proofs::Digits::decimal_four))]
    fn few_digits(&mut self, number: u32)
        requires few { number < 10000 }
        requires room { length self.old + 4 ≤ 512 }
        ensures digits { self.new ≡ self.old ++ decimal number }
        ensures room { length self.new ≤ length self.old + 4 }
    {
        if number < 10 {
            self.push(digit(number));
        } else if number < 100 {
            self.two_digits(number);
        } else if number < 1000 {
            self.three_digits(number);
        } else {
            self.last_four(number);
        }
    }

    #[inline(always)]
    #[tactic(auto, using(crate::proofs::Digits::four_behind))]
    fn some_digits(&mut self, number: u32)
        requires some { number < 100000000 }
        requires room { length self.old + 8 ≤ 512 }
        ensures digits { self.new ≡ self.old ++ decimal number }
        ensures room { length self.new ≤ length self.old + 8 }
    {
        if number < 10_000 {
            self.few_digits(number);
        } else {
            self.few_digits(number / 10_000);
            self.last_four(number % 10_000);
        }
    }

    #[inline(always)]
    #[tactic(auto, using(crate::proofs::Digits::eight_behind))]
    fn more_digits(&mut self, number: u64)
        requires more { number < 10000000000000000 }
        requires room { length self.old + 16 ≤ 512 }
        ensures digits { self.new ≡ self.old ++ decimal number }
        ensures room { length self.new ≤ length self.old + 16 }
    {
        if number < 100_000_000 {
            self.some_digits(number as u32);
        } else {
            self.some_digits((number / 100_000_000) as u32);
            self.last_eight((number % 100_000_000) as u32);
        }
    }

    // Apart: few numbers are so long, and the others' way stays short.
    #[inline(never)]
    #[tactic(auto, using(crate::proofs::Digits::eight_behind))]
    fn many_digits(&mut self, number: u64)
        requires many { 100000000 ≤ number }
        requires room { length self.old + 24 ≤ 512 }
        ensures { self.new ≡ self.old ++ decimal number }
    {
        self.more_digits(number / 100_000_000);
        self.last_eight((number % 100_000_000) as u32);
    }

    // Apart, so that a number of one digit, which most are, is written with no call.
    #[inline(never)]
    fn longer(&mut self, number: u64)
        requires { length self.old + 24 ≤ 512 }
        ensures { self.new ≡ self.old ++ decimal number }
    {
        if number < 100_000_000 {
            self.some_digits(number as u32);
        } else {
            self.many_digits(number);
        }
    }

    /// Appends a number, without leading zeros.
    #[inline(always)]
    #[tactic(auto, using(std::proofs::lemmas::Fmt::decimal_digit))]
    pub(crate) fn number(&mut self, number: u64)
        requires { length self.old + 24 ≤ 512 }
        ensures { self.new ≡ self.old ++ decimal number }
    {
        if number < 10 {
            self.push(digit(number as u32));
        } else {
            self.longer(number);
        }
    }
}

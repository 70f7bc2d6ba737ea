//! Numbers as bytes, the lowest first, in as many bytes as they need. So a small number takes few bytes, and 0 takes none.
ghost use Rattle.std.specs.Prelude.{◌≡◌, ◌+◌, ◌-◌, ◌<◌, ◌≤◌, ◌++◌, length, take, drop};
ghost use Rattle.co_packed.specs.Numbers.{width, bytes_of, value, number_in};

/// The numbers of so many lowest bytes have these bits. More than eight bytes count as eight.
static MASKS: [u64; 16] = [
    0,
    0xff,
    0xffff,
    0xff_ffff,
    0xffff_ffff,
    0xff_ffff_ffff,
    0xffff_ffff_ffff,
    0xff_ffff_ffff_ffff,
    0xffff_ffff_ffff_ffff,
    0xffff_ffff_ffff_ffff,
    0xffff_ffff_ffff_ffff,
    0xffff_ffff_ffff_ffff,
    0xffff_ffff_ffff_ffff,
    0xffff_ffff_ffff_ffff,
    0xffff_ffff_ffff_ffff,
    0xffff_ffff_ffff_ffff,
];

/// How many bytes the number needs.
#[inline]
#[tactic(auto, unfolding(crate::specs::Numbers::width))]
pub(crate) fn width_of(number: u64) -> u64
    ensures value { result ≡ width number }
    ensures bounded { result ≤ 8 }
{
    u64::from((64 - number.leading_zeros() + 7) / 8)
}

/// Puts the eight bytes of a number in the place of those at `at`.
#[inline]
pub(crate) fn put_word(buffer: &mut [u8; 136], at: usize, word: u64)
    requires { at ≤ 128 }
    ensures written { take (at + 8) buffer.new ≡ take at buffer.old ++ bytes_of 8 word }
    ensures behind { drop (at + 8) buffer.new ≡ drop (at + 8) buffer.old }
{
    buffer[at..at + 8].copy_from_slice(&word.to_le_bytes());
}

/// The number that eight bytes are, from `at` on.
#[inline]
pub(crate) fn word_at(bytes: &[u8], at: usize) -> u64
    requires { at + 8 ≤ length bytes.now }
    ensures { result ≡ value 8 (drop at bytes.now) }
{
    match bytes[at..].first_chunk::<8>() {
        Some(word) => u64::from_le_bytes(*word),
        None => unreachable!(),
    }
}

/// The number of this width, from `at` on.
#[inline]
#[tactic(auto, unfolding(crate::specs::Numbers::number_in))]
pub(crate) fn number_at(bytes: &[u8], at: usize, width: usize) -> u64
    requires within { at + 8 ≤ length bytes.now }
    requires few { width < 16 }
    ensures { result ≡ number_in width (drop at bytes.now) }
{
    word_at(bytes, at) & MASKS[width]
}

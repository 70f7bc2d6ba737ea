//! Lines that commands of more than one language are answered by.
ghost use Rattle.std.specs.Prelude.{◌≡◌, ◌<◌, ◌+◌, ◌++◌, ◌∷◌, [], OnOk, decimal};
ghost use Rattle.co_text.specs.Lines.{line_text};

use co_sbt::NoMemory;
use co_text::Page;

/// A line of a word alone.
#[inline]
pub fn print_word(page: &mut Page, word: &[u8]) -> Result<(), NoMemory>
    ensures { OnOk result (page.new ≡ page.old ++ line_text (word.now ∷ [])) }
{
    page.text(word)?;
    page.end()
}

/// The digit of a number that has one.
fn digit(number: u64) -> u8
    requires { number < 10 }
    ensures { result ≡ 48 + number }
{
    b'0' + number as u8
}

/// The last number of a line, which has one digit, and the line's end, in one piece.
#[inline]
fn print_digit(page: &mut Page, number: u64) -> Result<(), NoMemory>
    requires { number < 10 }
    ensures { OnOk result (page.new ≡ page.old ++ ((32 ∷ decimal number) ++ 10 ∷ [])) }
{
    // One store: a page that copies bytes stored one by one has to wait for them.
    let start = u32::from(b' ') + 256 * u32::from(digit(number));
    let word = start + 65536 * u32::from(b'\n');
    page.text(&word.to_le_bytes()[..3])
}

/// The last number of a line, behind a space, and the line's end.
#[inline]
pub fn print_last(page: &mut Page, number: u64) -> Result<(), NoMemory>
    ensures { OnOk result (page.new ≡ page.old ++ ((32 ∷ decimal number) ++ 10 ∷ [])) }
{
    // Most are counts of one digit.
    if number < 10 {
        return print_digit(page, number);
    }
    page.tagged(b" ".as_slice(), number)?;
    page.end()
}

/// A line of a word and a number.
// Inlined, a word that is a literal is stored with no call.
#[inline]
pub fn print_number(page: &mut Page, word: &[u8], number: u64) -> Result<(), NoMemory>
    ensures { OnOk result (page.new ≡ page.old ++ line_text (word.now ∷ decimal number ∷ [])) }
{
    page.text(word)?;
    print_last(page, number)
}

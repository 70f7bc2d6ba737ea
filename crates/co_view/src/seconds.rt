//! Times as seconds in decimals.
ghost use Rattle.std.specs.Prelude.{◌≡◌, ◌++◌, ◌<◌, ◌+◌, ◌*◌, ◌/◌, ◌%◌, OnOk};
ghost use Rattle.co_view.specs.Seconds.{fraction, micros_of, seconds_word, three_digits};

use co_sbt::{NoMemory, Sbt};
use co_text::Page;

/// A time in microseconds, rounded.
fn micros_of(time: Sbt) -> u64
    ensures { result ≡ micros_of time }
{
    let units = time.raw();
    let rest = units % 4_294_967_296;
    units / 4_294_967_296 * 1_000_000 + (rest * 1_000_000 + 2_147_483_648) / 4_294_967_296
}

/// The last digit of a number.
fn digit(number: u64) -> u8
    ensures { result ≡ 48 + number % 10 }
{
    b'0' + (number % 10) as u8
}

/// A number of three digits.
fn print_three(page: &mut Page, number: u64) -> Result<(), NoMemory>
    requires { number < 1000 }
    ensures { OnOk result (page.new ≡ page.old ++ three_digits number) }
{
    let digits = [digit(number / 100), digit(number / 10), digit(number)];
    page.text(&digits)
}

/// A point and millionths.
fn print_six(page: &mut Page, number: u64) -> Result<(), NoMemory>
    requires { number < 1000000 }
    ensures { OnOk result (page.new ≡ page.old ++ (three_digits (number / 1000) ++ three_digits (number % 1000))) }
{
    print_three(page, number / 1000)?;
    print_three(page, number % 1000)
}

/// The millionths of a second behind its point.
fn print_fraction(page: &mut Page, number: u64) -> Result<(), NoMemory>
    requires { number < 1000000 }
    ensures { OnOk result (page.new ≡ page.old ++ fraction number) }
{
    if number == 0 {
        return Ok(());
    }
    page.text(b".")?;
    if number % 1000 == 0 {
        print_three(page, number / 1000)
    } else {
        print_six(page, number)
    }
}

/// A time as seconds, rounded to a microsecond: `1s`, `1.500s`, `0.003906s`.
pub(crate) fn print_seconds(page: &mut Page, time: Sbt) -> Result<(), NoMemory>
    ensures { OnOk result (page.new ≡ page.old ++ seconds_word time) }
{
    let micros = micros_of(time);
    page.number(micros / 1_000_000)?;
    print_fraction(page, micros % 1_000_000)?;
    page.text(b"s")
}

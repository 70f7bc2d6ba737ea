//! Lines of words at the end of one text.
ghost use Rattle.std.specs.Prelude.{◌≡◌, ◌≤◌, ◌++◌, ◌∷◌, [], decimal, length, OnOk, IfOk};
ghost use Rattle.std.specs.Fmt.{signed_decimal};
ghost use Rattle.co_text.specs.Lines.{spaced, line_text};
ghost use Rattle.co_text.specs.Written.{token_word, token_words};

use crate::tail::Tail;
use crate::token::Token;
use co_sbt::{NoMemory, Room, Seq};
use std::alloc::Global;
use std::marker::Model;
use std::mem;

/// A text that grows at its end, by whole words and lines. Contracts see its bytes.
///
/// Its last bytes are kept back, at most 512 of them, and go to the others together. After NoMemory it has a part of what was
/// to be appended.
#[derive(Drop)]
pub struct Page {
    bytes: Seq<u8>,
    tail: Tail,
}

impl Model for Page {
    ghost use Rattle.std.specs.Prelude.{List, ℕ, ◌++◌};

    ghost Value = { List ℕ };

    ghost view = { λ p. p.bytes ++ p.tail };
}

/// The bytes that were kept back go to the others.
fn spill(bytes: &mut Seq<u8>, tail: &mut Tail) -> Result<(), NoMemory>
    ensures bytes { OnOk result (bytes.new ≡ bytes.old ++ tail.old) }
    ensures tail { OnOk result (tail.new ≡ []) }
{
    bytes.extend_from_slice(tail.as_slice())?;
    tail.clear();
    Ok(())
}

/// The same, where they are many: the first memory then is of 512 bytes, so that what it is doubled to are powers of two.
fn spill_many(bytes: &mut Seq<u8>, tail: &mut Tail) -> Result<(), NoMemory>
    ensures bytes { OnOk result (bytes.new ≡ bytes.old ++ tail.old) }
    ensures tail { OnOk result (tail.new ≡ []) }
{
    if bytes.as_slice().is_empty() {
        bytes.extend_from_slice(tail.room())?;
        bytes.clear();
    }
    spill(bytes, tail)
}

impl Page {
    /// The empty text, which takes no memory.
    pub fn new(alloc: Global) -> Page
        ensures { result ≡ [] }
    {
        Page {
            bytes: Seq::new(alloc),
            tail: Tail::empty(),
        }
    }

    /// The text, which is done. `NoMemory` where there is no room for its last bytes.
    pub fn done(self) -> Result<Seq<u8>, NoMemory>
        ensures { IfOk result (λ bytes. bytes ≡ self) }
    {
        let Page {
            mut bytes,
            mut tail,
        } = self;
        spill(&mut bytes, &mut tail)?;
        Ok(bytes)
    }

    /// How many bytes there are, but for those that are kept back.
    #[inline(always)]
    pub fn stored(&self) -> usize
        ensures { result ≤ length self.now }
    {
        self.bytes.as_slice().len()
    }

    /// Takes the text out, and makes room for another one of `room` bytes. `NoMemory` where there is no such room, or none for
    /// the last bytes.
    pub fn take(&mut self, alloc: Global, room: usize) -> Result<Seq<u8>, NoMemory>
        ensures taken { IfOk result (λ bytes. bytes ≡ self.old) }
        ensures empty { OnOk result (self.new ≡ []) }
    {
        spill(&mut self.bytes, &mut self.tail)?;
        let mut next = Room::from_seq(Seq::new(alloc));
        next.reserve(room)?;
        Ok(mem::replace(&mut self.bytes, next.into_seq()))
    }

    // Apart, as the other ways that are gone once in 512 bytes: the usual way stays short.
    #[inline(never)]
    fn late_text(&mut self, text: &[u8]) -> Result<(), NoMemory>
        ensures { OnOk result (self.new ≡ self.old ++ text.now) }
    {
        spill_many(&mut self.bytes, &mut self.tail)?;
        self.bytes.extend_from_slice(text)
    }

    #[inline(always)]
    fn push(&mut self, byte: u8) -> Result<(), NoMemory>
        ensures { OnOk result (self.new ≡ self.old ++ byte ∷ []) }
    {
        if self.tail.has_room(1) {
            self.tail.push(byte);
            return Ok(());
        }
        self.late_text([byte].as_slice())
    }

    /// Appends these bytes. `NoMemory` where there is no room: then a part of them may be there.
    // Most texts are literals: inlined, they are stored with no call.
    #[inline(always)]
    pub fn text(&mut self, text: &[u8]) -> Result<(), NoMemory>
        ensures { OnOk result (self.new ≡ self.old ++ text.now) }
    {
        if self.tail.has_room(text.len()) {
            self.tail.put(text);
            return Ok(());
        }
        self.late_text(text)
    }

    #[inline(never)]
    fn late_number(&mut self, number: u64) -> Result<(), NoMemory>
        ensures { OnOk result (self.new ≡ self.old ++ decimal number) }
    {
        spill_many(&mut self.bytes, &mut self.tail)?;
        self.tail.number(number);
        Ok(())
    }

    /// Appends a number, without leading zeros. `NoMemory` where there is no room.
    #[inline(always)]
    pub fn number(&mut self, number: u64) -> Result<(), NoMemory>
        ensures { OnOk result (self.new ≡ self.old ++ decimal number) }
    {
        if self.tail.has_room(24) {
            self.tail.number(number);
            return Ok(());
        }
        self.late_number(number)
    }

    /// Appends a number, with a `-` where it is below 0. `NoMemory` where there is no room.
    #[inline(always)]
    pub fn signed(&mut self, number: i32) -> Result<(), NoMemory>
        ensures { OnOk result (self.new ≡ self.old ++ signed_decimal number) }
    {
        if number >= 0 {
            return self.number(number as u64);
        }
        self.tagged(b"-".as_slice(), u64::from(number.unsigned_abs()))
    }

    #[inline(never)]
    fn late_tagged(&mut self, tag: &[u8], number: u64) -> Result<(), NoMemory>
        ensures { OnOk result (self.new ≡ self.old ++ (tag.now ++ decimal number)) }
    {
        self.late_text(tag)?;
        self.number(number)
    }

    /// Appends these bytes and a number. `NoMemory` where there is no room.
    // One look at the room does for both.
    #[inline(always)]
    pub fn tagged(&mut self, tag: &[u8], number: u64) -> Result<(), NoMemory>
        ensures { OnOk result (self.new ≡ self.old ++ (tag.now ++ decimal number)) }
    {
        if tag.len() <= 64 && self.tail.has_room(tag.len() + 24) {
            self.tail.put(tag);
            self.tail.number(number);
            return Ok(());
        }
        self.late_tagged(tag, number)
    }

    fn lettered(&mut self, letter: u8, number: u64) -> Result<(), NoMemory>
        ensures { OnOk result (self.new ≡ self.old ++ letter ∷ decimal number) }
    {
        self.push(letter)?;
        self.number(number)
    }

    fn token(&mut self, token: &Token) -> Result<(), NoMemory>
        ensures { OnOk result (self.new ≡ self.old ++ token_word token.now) }
    {
        match *token {
            Token::Text(text) => self.text(text),
            Token::Number(number) => self.number(number),
            Token::Lettered(letter, number) => self.lettered(letter, number),
            Token::Signed(number) => self.signed(number),
        }
    }

    /// Appends further words of a line, each behind a space. `NoMemory` where there is no room.
    pub fn more(&mut self, tokens: &[Token]) -> Result<(), NoMemory>
        ensures { OnOk result (self.new ≡ self.old ++ spaced (token_words tokens.now)) }
    {
        for token in tokens {
            self.push(b' ')?;
            self.token(token)?;
        }
        Ok(())
    }

    /// Appends the first words of a line, with one space between two. `NoMemory` where there is no room.
    pub fn begin(&mut self, first: &Token, others: &[Token]) -> Result<(), NoMemory>
        ensures { OnOk result (self.new ≡ self.old ++ (token_word first.now ++ spaced (token_words others.now))) }
    {
        self.token(first)?;
        self.more(others)
    }

    /// Appends a line feed. `NoMemory` where there is no room.
    #[inline(always)]
    pub fn end(&mut self) -> Result<(), NoMemory>
        ensures { OnOk result (self.new ≡ self.old ++ 10 ∷ []) }
    {
        self.push(b'\n')
    }

    /// Appends a line of words, with one space between two and a line feed. `NoMemory` where there is no room.
    pub fn line(&mut self, first: &Token, others: &[Token]) -> Result<(), NoMemory>
        ensures { OnOk result (self.new ≡ self.old ++ line_text (token_word first.now ∷ token_words others.now)) }
    {
        self.begin(first, others)?;
        self.end()
    }
}

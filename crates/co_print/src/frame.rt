//! What stands in a report around the notes: the lines before the first place, the line that each place begins with, and
//! the last line.
ghost use Rattle.std.specs.Prelude.{◌≡◌, ◌++◌, ◌∷◌, [], codes, OnOk, IfOk};
ghost use Rattle.std.specs.List.{concat};
ghost use Rattle.co_text.specs.Lines.{line_text};
ghost use Rattle.co_text.specs.Written.{token_word};
ghost use Rattle.co_grammar.specs.Spelling.{numbered};
ghost use Rattle.co_script.specs.Canonical.{canonical};
ghost use Rattle.co_print.specs.Reports.{heading, head_text};
ghost use Rattle.co_notes.specs.Parts.{joined};

use co_grammar::{actor_name, print_numbered};
use co_object::Place;
use co_program::Script;
use co_sbt::{NoMemory, Seq};
use co_script::{append, print_lines};
use co_text::{Page, Token};
use std::alloc::Global;

/// A line of one word. `NoMemory` where the page finds no room.
pub fn print_word(page: &mut Page, word: &[u8]) -> Result<(), NoMemory>
    ensures { OnOk result (page.new ≡ page.old ++ line_text (word.now ∷ [])) }
{
    page.line(&Token::Text(word), [].as_slice())
}

/// Two words: one that is given, and what the token says.
fn begin_named(page: &mut Page, word: &[u8], name: Token) -> Result<(), NoMemory>
    ensures { OnOk result (page.new ≡ page.old ++ joined (word.now ∷ token_word name.entry ∷ [])) }
{
    page.begin(&Token::Text(word), [name].as_slice())
}

/// The line that a place begins with, without its line feed. `NoMemory` where the page finds no room.
pub fn begin_heading(page: &mut Page, script: &Script, place: Place) -> Result<(), NoMemory>
    ensures { OnOk result (page.new ≡ page.old ++ joined (heading script.now place)) }
{
    match place {
        Place::Timer(timer) => {
            begin_named(page, b"timer".as_slice(), Token::Number(u64::from(timer)))
        }
        Place::Cpu(cpu) => begin_named(page, b"wheel".as_slice(), Token::Number(u64::from(cpu))),
        Place::Actor(actor) => {
            let (letter, name) = actor_name(script, actor);
            begin_named(page, b"actor".as_slice(), Token::Lettered(letter, name))
        }
    }
}

/// The line that a place begins with. `NoMemory` where the page finds no room.
#[tactic(auto, using(crate::proofs::Framed::heading_ended))]
pub fn print_heading(page: &mut Page, script: &Script, place: Place) -> Result<(), NoMemory>
    ensures { OnOk result (page.new ≡ page.old ++ line_text (heading script.now place)) }
{
    begin_heading(page, script, place)?;
    page.end()
}

/// The lines before the first place. `NoMemory` where the page finds no room.
pub fn print_head(page: &mut Page, script: &Script) -> Result<(), NoMemory>
    ensures { OnOk result (page.new ≡ page.old ++ line_text (numbered (codes "callout-report") 1) ++ canonical script.now ++ line_text (codes "histories" ∷ [])) }
{
    print_numbered(page, b"callout-report".as_slice(), 1)?;
    print_lines(page, script)?;
    print_word(page, b"histories".as_slice())
}

/// The lines before the first place as a piece of their own. `NoMemory` where there is no room for them.
pub fn head_piece(alloc: Global, script: &Script) -> Result<Seq<u8>, NoMemory>
    ensures { IfOk result (λ head. head ≡ head_text script.now) }
{
    let mut page = Page::new(alloc);
    print_head(&mut page, script)?;
    page.done()
}

/// The whole report in pieces, of the piece before its places and the pieces of its places: the last line comes behind
/// them. `NoMemory` where there is no room for them.
pub fn in_frame(alloc: Global, head: Seq<u8>, parts: Seq<Seq<u8>>) -> Result<Seq<Seq<u8>>, NoMemory>
    ensures { IfOk result (λ pieces. concat pieces ≡ head ++ concat parts ++ line_text (codes "end" ∷ [])) }
{
    let mut pieces = Seq::new(alloc);
    pieces.push(head)?;
    append(&mut pieces, parts)?;
    pieces.push(Seq::copy_of(alloc, b"end\n".as_slice())?)?;
    Ok(pieces)
}

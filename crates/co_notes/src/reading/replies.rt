//! Replies of a callout, read from the words of a note.
ghost use Rattle.co_text.specs.Fallible.{Gives};
ghost use Rattle.co_notes.specs.NoteForms.{reads_nothing, off_form, armed_form, not_armed_form, stopped_form, wait_form, drained_form, in_use_form, go_form, later_form, next_form, drain_named, next_named, woke_form, ended_form, choice, valued_replies, reply_forms, reply_form};

use crate::reading::codes::code;
use crate::reading::names::Names;
use crate::reading::parts::Parts;
use crate::reading::values::{
    argument, arming, cpu, cpu_or_none, func, func_or_none, literal, time, truth,
};
use co_object::{Next, Reply};
use co_text::{Cause, is_word};

/// `off pC` or `off -`.
fn off(names: &Names, parts: &mut Parts) -> Result<Option<u32>, Cause>
    ensures { Gives (λ x. (x, parts.new)) result (off_form names.now parts.old) }
{
    literal(b"off".as_slice(), parts)?;
    cpu_or_none(names, parts)
}

/// A reply of one word.
#[inline(always)]
fn put(reply: Reply, parts: &mut Parts, into: &mut Reply) -> Result<(), Cause>
    ensures { Gives (λ _. (into.new, parts.new)) result (reads_nothing reply parts.old) }
{
    let _ = parts;
    // The check wants the enums inside a reply to be named.
    let _inside: (Option<u32>, Option<Next>) = (None, None);
    *into = reply;
    Ok(())
}

#[inline(always)]
fn armed(names: &Names, parts: &mut Parts, into: &mut Reply) -> Result<(), Cause>
    ensures { Gives (λ _. (into.new, parts.new)) result (armed_form names.now parts.old) }
{
    let code = code(parts)?;
    let n = arming(parts)?;
    let cpu = cpu(names, parts)?;
    let off = off(names, parts)?;
    *into = Reply::Armed { code, n, cpu, off };
    Ok(())
}

fn not_armed(parts: &mut Parts, into: &mut Reply) -> Result<(), Cause>
    ensures { Gives (λ _. (into.new, parts.new)) result (not_armed_form parts.old) }
{
    let code = code(parts)?;
    *into = Reply::NotArmed { code };
    Ok(())
}

#[inline(always)]
fn stopped(names: &Names, parts: &mut Parts, into: &mut Reply) -> Result<(), Cause>
    ensures { Gives (λ _. (into.new, parts.new)) result (stopped_form names.now parts.old) }
{
    let code = code(parts)?;
    let off = off(names, parts)?;
    *into = Reply::Stopped { code, off };
    Ok(())
}

fn wait(names: &Names, parts: &mut Parts, into: &mut Reply) -> Result<(), Cause>
    ensures { Gives (λ _. (into.new, parts.new)) result (wait_form names.now parts.old) }
{
    let n = arming(parts)?;
    let took = truth(parts)?;
    let off = off(names, parts)?;
    *into = Reply::Wait { n, took, off };
    Ok(())
}

#[inline(always)]
fn drained(names: &Names, parts: &mut Parts, into: &mut Reply) -> Result<(), Cause>
    ensures { Gives (λ _. (into.new, parts.new)) result (drained_form names.now parts.old) }
{
    let code = code(parts)?;
    let off = off(names, parts)?;
    *into = Reply::Drained { code, off };
    Ok(())
}

fn in_use(parts: &mut Parts, into: &mut Reply) -> Result<(), Cause>
    ensures { Gives (λ _. (into.new, parts.new)) result (in_use_form parts.old) }
{
    let armed = truth(parts)?;
    let serviced = truth(parts)?;
    *into = Reply::InUse { armed, serviced };
    Ok(())
}

#[inline(always)]
fn go(names: &Names, parts: &mut Parts, into: &mut Reply) -> Result<(), Cause>
    ensures { Gives (λ _. (into.new, parts.new)) result (go_form names.now parts.old) }
{
    let func = func(names, parts)?;
    let arg = argument(parts)?;
    *into = Reply::Go { func, arg };
    Ok(())
}

/// `#N pC uDUE`.
fn later(names: &Names, parts: &mut Parts) -> Result<Next, Cause>
    ensures { Gives (λ x. (x, parts.new)) result (later_form names.now parts.old) }
{
    let n = arming(parts)?;
    let cpu = cpu(names, parts)?;
    let due = time(parts)?;
    Ok(Next { n, cpu, due })
}

/// `#N pC uDUE` or `-`.
fn next(names: &Names, parts: &mut Parts) -> Result<Option<Next>, Cause>
    ensures { Gives (λ x. (x, parts.new)) result (next_form names.now parts.old) }
{
    if parts.option(b"-".as_slice()) {
        Ok(None)
    } else {
        Ok(Some(later(names, parts)?))
    }
}

/// `drain fF` or `drain -`.
fn drain_named(names: &Names, parts: &mut Parts) -> Result<Option<u32>, Cause>
    ensures { Gives (λ x. (x, parts.new)) result (drain_named names.now parts.old) }
{
    literal(b"drain".as_slice(), parts)?;
    func_or_none(names, parts)
}

/// `next #N pC uDUE` or `next -`.
fn next_named(names: &Names, parts: &mut Parts) -> Result<Option<Next>, Cause>
    ensures { Gives (λ x. (x, parts.new)) result (next_named names.now parts.old) }
{
    literal(b"next".as_slice(), parts)?;
    next(names, parts)
}

/// `woke W`.
fn woke(parts: &mut Parts) -> Result<bool, Cause>
    ensures { Gives (λ x. (x, parts.new)) result (woke_form parts.old) }
{
    literal(b"woke".as_slice(), parts)?;
    truth(parts)
}

#[inline(always)]
fn ended(names: &Names, parts: &mut Parts, into: &mut Reply) -> Result<(), Cause>
    ensures { Gives (λ _. (into.new, parts.new)) result (ended_form names.now parts.old) }
{
    let drain = drain_named(names, parts)?;
    let next = next_named(names, parts)?;
    let woke = woke(parts)?;
    *into = Reply::Ended { drain, next, woke };
    Ok(())
}

/// The reply that a word begins, where it has values.
#[tactic(auto, unfolding(crate::specs::NoteForms::valued_replies))]
fn valued(names: &Names, word: &[u8], parts: &mut Parts, into: &mut Reply) -> Result<(), Cause>
    ensures { Gives (λ _. (into.new, parts.new)) result (choice (valued_replies names.now) word.now parts.old) }
{
    if is_word(word, b"armed".as_slice()) {
        armed(names, parts, into)
    } else if is_word(word, b"notarmed".as_slice()) {
        not_armed(parts, into)
    } else if is_word(word, b"stopped".as_slice()) {
        stopped(names, parts, into)
    } else if is_word(word, b"wait".as_slice()) {
        wait(names, parts, into)
    } else if is_word(word, b"drained".as_slice()) {
        drained(names, parts, into)
    } else if is_word(word, b"inuse".as_slice()) {
        in_use(parts, into)
    } else if is_word(word, b"go".as_slice()) {
        go(names, parts, into)
    } else if is_word(word, b"ended".as_slice()) {
        ended(names, parts, into)
    } else {
        Err(Cause::Form)
    }
}

/// The reply that a word begins.
#[tactic(auto, unfolding(crate::specs::NoteForms::reply_forms))]
fn reply_by(names: &Names, word: &[u8], parts: &mut Parts, into: &mut Reply) -> Result<(), Cause>
    ensures { Gives (λ _. (into.new, parts.new)) result (choice (reply_forms names.now) word.now parts.old) }
{
    if is_word(word, b"nohandler".as_slice()) {
        put(Reply::NoHandler, parts, into)
    } else if is_word(word, b"worn".as_slice()) {
        put(Reply::Worn, parts, into)
    } else if is_word(word, b"busy".as_slice()) {
        put(Reply::Busy, parts, into)
    } else if is_word(word, b"yes".as_slice()) {
        put(Reply::Yes, parts, into)
    } else if is_word(word, b"no".as_slice()) {
        put(Reply::No, parts, into)
    } else if is_word(word, b"done".as_slice()) {
        put(Reply::Done, parts, into)
    } else if is_word(word, b"live".as_slice()) {
        put(Reply::Live, parts, into)
    } else if is_word(word, b"retired".as_slice()) {
        put(Reply::Retired, parts, into)
    } else if is_word(word, b"hold".as_slice()) {
        put(Reply::Hold, parts, into)
    } else if is_word(word, b"skip".as_slice()) {
        put(Reply::Skip, parts, into)
    } else {
        valued(names, word, parts, into)
    }
}

/// A reply, looked up by its word.
#[inline(never)]
fn reply_by_word(names: &Names, parts: &mut Parts, into: &mut Reply) -> Result<(), Cause>
    ensures { Gives (λ _. (into.new, parts.new)) result (reply_form names.now parts.old) }
{
    let word = parts.word()?;
    reply_by(names, word, parts, into)
}

/// A reply to a client or to a pick. The frequent ones are compared in place.
#[inline(always)]
fn short_reply(names: &Names, parts: &mut Parts, into: &mut Reply) -> Result<(), Cause>
    ensures { Gives (λ _. (into.new, parts.new)) result (reply_form names.now parts.old) }
{
    if parts.option(b"stopped".as_slice()) {
        stopped(names, parts, into)
    } else if parts.option(b"hold".as_slice()) {
        put(Reply::Hold, parts, into)
    } else if parts.option(b"drained".as_slice()) {
        drained(names, parts, into)
    } else if parts.option(b"no".as_slice()) {
        put(Reply::No, parts, into)
    } else if parts.option(b"yes".as_slice()) {
        put(Reply::Yes, parts, into)
    } else {
        reply_by_word(names, parts, into)
    }
}

/// Reads a reply to where it is to stay; `Form` where the parts begin none. The most frequent ones are compared first.
// A reply that is handed on would be copied right behind its stores, which takes longer than to make it.
#[inline(always)]
pub fn reply(names: &Names, parts: &mut Parts, into: &mut Reply) -> Result<(), Cause>
    ensures { Gives (λ _. (into.new, parts.new)) result (reply_form names.now parts.old) }
{
    if parts.option(b"armed".as_slice()) {
        armed(names, parts, into)
    } else if parts.option(b"go".as_slice()) {
        go(names, parts, into)
    } else if parts.option(b"ended".as_slice()) {
        ended(names, parts, into)
    } else {
        short_reply(names, parts, into)
    }
}

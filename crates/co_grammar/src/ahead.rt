//! The act at the front of a text, read before its line is cut: most acts have one space between two words and their numbers
//! in few digits, and are read in one walk.
ghost use Rattle.std.specs.Prelude.{◌≡◌, ◌⊎◌, true, IfSome};
ghost use Rattle.co_grammar.specs.Ahead.{is_of_who, EndsAct, SaysAhead};
ghost use Rattle.co_grammar.specs.declared.keyword.Verb.TheVariants as verbs;

mod operand;
mod verb;

use crate::forms::{numbered_act, timed_act, who_act};
use crate::keyword::Verb;
use co_program::{Act, Who};
use co_sbt::Sbt;
use operand::{last_cpu, line_end, next_argument, next_func, next_moment, next_number, next_time};
use verb::verb_ahead;

// Each form below puts its act into `into` where the words of the line are as it reads them, and gives what stands behind
// the line.

/// `now uN` or `tick uN`.
#[inline(always)]
fn timed<'a>(verb: Verb, rest: &'a [u8], into: &mut Act) -> Option<&'a [u8]>
    requires { (verb ≡ verbs.Now) ⊎ (verb ≡ verbs.Tick) }
    ensures { IfSome result (λ after. EndsAct verb rest.now into.new after.now) }
{
    let (units, rest) = next_time(rest)?;
    let after = line_end(rest)?;
    let time = Sbt::new(units)?;
    *into = timed_act(verb, time);
    Some(after)
}

/// `lock N`, `rlock N` or `drain N`.
#[inline(always)]
fn numbered<'a>(verb: Verb, rest: &'a [u8], into: &mut Act) -> Option<&'a [u8]>
    requires { (verb ≡ verbs.Lock) ⊎ ((verb ≡ verbs.ReadLock) ⊎ (verb ≡ verbs.Drain)) }
    ensures { IfSome result (λ after. EndsAct verb rest.now into.new after.now) }
{
    let (number, rest) = next_number(rest)?;
    let after = line_end(rest)?;
    *into = numbered_act(verb, number);
    Some(after)
}

/// `stop N` and what else is of a callout alone.
#[inline(always)]
fn of_who<'a>(verb: Verb, rest: &'a [u8], into: &mut Act) -> Option<&'a [u8]>
    requires { is_of_who verb ≡ true }
    ensures { IfSome result (λ after. EndsAct verb rest.now into.new after.now) }
{
    let (timer, rest) = next_number(rest)?;
    let after = line_end(rest)?;
    *into = who_act(verb, Who::Timer(timer));
    Some(after)
}

/// `unlock`.
#[inline(always)]
fn unlock<'a>(rest: &'a [u8], into: &mut Act) -> Option<&'a [u8]>
    ensures { IfSome result (λ after. EndsAct verbs.Unlock rest.now into.new after.now) }
{
    let after = line_end(rest)?;
    *into = Act::Unlock;
    Some(after)
}

/// `adrain N fF`.
#[inline(always)]
fn async_drain<'a>(rest: &'a [u8], into: &mut Act) -> Option<&'a [u8]>
    ensures { IfSome result (λ after. EndsAct verbs.AsyncDrain rest.now into.new after.now) }
{
    let (timer, rest) = next_number(rest)?;
    let (func, rest) = next_func(rest)?;
    let after = line_end(rest)?;
    *into = Act::AsyncDrain {
        who: Who::Timer(timer),
        func,
    };
    Some(after)
}

/// `schedule N +T [cpu C]`.
#[inline(always)]
fn schedule<'a>(rest: &'a [u8], into: &mut Act) -> Option<&'a [u8]>
    ensures { IfSome result (λ after. EndsAct verbs.Schedule rest.now into.new after.now) }
{
    let (timer, rest) = next_number(rest)?;
    let Some((when, rest)) = next_moment(rest) else {
        return None;
    };
    let (cpu, after) = last_cpu(rest)?;
    *into = Act::Schedule {
        who: Who::Timer(timer),
        when,
        cpu,
        prec: Sbt::zero(),
    };
    Some(after)
}

/// `reset N +T fF aA [cpu C]`.
#[inline(always)]
fn reset<'a>(rest: &'a [u8], into: &mut Act) -> Option<&'a [u8]>
    ensures { IfSome result (λ after. EndsAct verbs.Reset rest.now into.new after.now) }
{
    let (timer, rest) = next_number(rest)?;
    let Some((when, rest)) = next_moment(rest) else {
        return None;
    };
    let (func, rest) = next_func(rest)?;
    let (arg, rest) = next_argument(rest)?;
    let (cpu, after) = last_cpu(rest)?;
    *into = Act::Reset {
        who: Who::Timer(timer),
        when,
        func,
        arg,
        cpu,
        prec: Sbt::zero(),
    };
    Some(after)
}

/// The act of a verb and of the words behind it.
#[inline(always)]
fn read_behind<'a>(verb: Verb, rest: &'a [u8], into: &mut Act) -> Option<&'a [u8]>
    ensures { IfSome result (λ after. EndsAct verb rest.now into.new after.now) }
{
    match verb {
        Verb::Now | Verb::Tick => timed(verb, rest, into),
        Verb::Lock | Verb::ReadLock | Verb::Drain => numbered(verb, rest, into),
        Verb::Unlock => unlock(rest, into),
        Verb::Stop | Verb::Active | Verb::Pending => of_who(verb, rest, into),
        Verb::Deactivate | Verb::Init | Verb::Retire => of_who(verb, rest, into),
        Verb::AsyncDrain => async_drain(rest, into),
        Verb::Schedule => schedule(rest, into),
        Verb::Reset => reset(rest, into),
        Verb::Ticks => None,
    }
}

/// Puts into `into` the act that the line at the front of a text says, and gives its verb and what stands behind the line.
/// None where the line says none, or says it in another form than those that are read here. What was in `into` does not
/// matter, and after None nothing is said of what is there.
#[inline(always)]
pub fn act_ahead<'a>(text: &'a [u8], into: &mut Act) -> Option<(Verb, &'a [u8])>
    ensures { IfSome result (λ x. SaysAhead text.now x.0 into.new x.1.now) }
{
    let (verb, rest) = verb_ahead(text)?;
    let after = read_behind(verb, rest, into)?;
    Some((verb, after))
}

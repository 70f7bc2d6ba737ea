//! Kinds as small numbers: each is its place in a table.
ghost use Rattle.std.specs.Prelude.{◌≡◌, ◌<◌};
ghost use Rattle.co_packed.specs.Numbered.{kind_at, answer_at, queue_kind_at, queue_answer_at, own_kind_at, sort_at, whose_at};

use crate::kinds::{Answer, Kind, QAnswer, QKind, Sort, Whose};
use co_object::OwnKind;

/// The operations on a callout, by their numbers.
static KINDS: [Kind; 16] = [
    Kind::Reset,
    Kind::ResetOn,
    Kind::Schedule,
    Kind::ScheduleOn,
    Kind::Stop,
    Kind::AsyncDrain,
    Kind::Active,
    Kind::Pending,
    Kind::Deactivate,
    Kind::Init,
    Kind::Retire,
    Kind::Drain,
    Kind::DrainTook,
    Kind::Pick,
    Kind::Begin,
    Kind::End,
];

/// The replies of a callout, by their numbers.
static ANSWERS: [Answer; 34] = [
    Answer::Armed,
    Answer::ArmedOff,
    Answer::NotArmed,
    Answer::NoHandler,
    Answer::Worn,
    Answer::Stopped,
    Answer::StoppedOff,
    Answer::Wait,
    Answer::WaitOff,
    Answer::WaitTook,
    Answer::WaitTookOff,
    Answer::Drained,
    Answer::DrainedOff,
    Answer::Busy,
    Answer::Yes,
    Answer::No,
    Answer::Done,
    Answer::Go,
    Answer::Hold,
    Answer::Skip,
    Answer::Ended,
    Answer::EndedWoke,
    Answer::EndedDrain,
    Answer::EndedDrainWoke,
    Answer::EndedNext,
    Answer::EndedNextWoke,
    Answer::EndedNextDrain,
    Answer::EndedNextDrainWoke,
    Answer::Live,
    Answer::Retired,
    Answer::InUse,
    Answer::InUseArmed,
    Answer::InUseServiced,
    Answer::InUseBoth,
];

/// The operations on a queue, by their numbers.
static QUEUE_KINDS: [QKind; 7] = [
    QKind::Insert,
    QKind::Remove,
    QKind::Scan,
    QKind::Pop,
    QKind::Free,
    QKind::PopDirect,
    QKind::FreeDirect,
];

/// The replies of a queue, by their numbers.
static QUEUE_ANSWERS: [QAnswer; 7] = [
    QAnswer::At,
    QAnswer::Off,
    QAnswer::Missing,
    QAnswer::Count,
    QAnswer::Got,
    QAnswer::Empty,
    QAnswer::Freed,
];

/// The kinds of acts that were refused, by their numbers.
static OWN_KINDS: [OwnKind; 4] = [
    OwnKind::NotHeld,
    OwnKind::HoldsLock,
    OwnKind::Holding,
    OwnKind::NotHolding,
];

/// The number of an operation on a callout.
#[tactic(auto, using(crate::proofs::Tables::kind_again), unfolding(crate::specs::Numbered::kind_at))]
fn kind_number(kind: Kind) -> u64
    ensures number { kind_at result ≡ kind }
    ensures bounded { result < 16 }
{
    kind as u64
}

/// An operation on a callout by its number.
#[tactic(auto, using(std::proofs::lemmas::List::get_or_past), unfolding(crate::specs::Numbered::kind_at))]
fn kind_at(number: u64) -> Kind
    ensures { result ≡ kind_at number }
{
    if number < 16 {
        KINDS[number as usize]
    } else {
        Kind::Reset
    }
}

/// The number of a reply of a callout.
#[tactic(auto, using(crate::proofs::Tables::answer_again), unfolding(crate::specs::Numbered::answer_at))]
fn answer_number(kind: Answer) -> u64
    ensures number { answer_at result ≡ kind }
    ensures bounded { result < 34 }
{
    kind as u64
}

/// A reply of a callout by its number.
#[tactic(auto, using(std::proofs::lemmas::List::get_or_past), unfolding(crate::specs::Numbered::answer_at))]
fn answer_at(number: u64) -> Answer
    ensures { result ≡ answer_at number }
{
    if number < 34 {
        ANSWERS[number as usize]
    } else {
        Answer::Armed
    }
}

/// The number of an operation on a queue.
#[tactic(auto, using(crate::proofs::Tables::queue_kind_again), unfolding(crate::specs::Numbered::queue_kind_at))]
fn queue_kind_number(kind: QKind) -> u64
    ensures number { queue_kind_at result ≡ kind }
    ensures bounded { result < 7 }
{
    kind as u64
}

/// An operation on a queue by its number.
#[tactic(auto, using(std::proofs::lemmas::List::get_or_past), unfolding(crate::specs::Numbered::queue_kind_at))]
fn queue_kind_at(number: u64) -> QKind
    ensures { result ≡ queue_kind_at number }
{
    if number < 7 {
        QUEUE_KINDS[number as usize]
    } else {
        QKind::Insert
    }
}

/// The number of a reply of a queue.
#[tactic(auto, using(crate::proofs::Tables::queue_answer_again), unfolding(crate::specs::Numbered::queue_answer_at))]
fn queue_answer_number(kind: QAnswer) -> u64
    ensures number { queue_answer_at result ≡ kind }
    ensures bounded { result < 7 }
{
    kind as u64
}

/// A reply of a queue by its number.
#[tactic(auto, using(std::proofs::lemmas::List::get_or_past), unfolding(crate::specs::Numbered::queue_answer_at))]
fn queue_answer_at(number: u64) -> QAnswer
    ensures { result ≡ queue_answer_at number }
{
    if number < 7 {
        QUEUE_ANSWERS[number as usize]
    } else {
        QAnswer::At
    }
}

/// The number of a kind of acts that were refused.
#[tactic(auto, using(crate::proofs::Tables::own_kind_again), unfolding(crate::specs::Numbered::own_kind_at))]
fn own_kind_number(kind: OwnKind) -> u64
    ensures number { own_kind_at result ≡ kind }
    ensures bounded { result < 4 }
{
    kind as u64
}

/// A kind of acts that were refused by its number.
#[tactic(auto, using(std::proofs::lemmas::List::get_or_past), unfolding(crate::specs::Numbered::own_kind_at))]
fn own_kind_at(number: u64) -> OwnKind
    ensures { result ≡ own_kind_at number }
{
    if number < 4 {
        OWN_KINDS[number as usize]
    } else {
        OwnKind::NotHeld
    }
}

/// The numbers of an operation and its reply.
#[tactic(auto, unfolding(crate::specs::Numbered::sort_at))]
pub(crate) fn sort_numbers(sort: Sort) -> (u64, u64)
    ensures numbers { sort_at result.0 result.1 ≡ sort }
    ensures bounded { result.0 < 27 }
{
    match sort {
        Sort::Timer(kind, answer) => (kind_number(kind), answer_number(answer)),
        Sort::Cpu(kind, answer) => (16 + queue_kind_number(kind), queue_answer_number(answer)),
        Sort::Own(kind) => (23 + own_kind_number(kind), 0),
    }
}

/// The operation and its reply by their numbers.
#[tactic(auto, unfolding(crate::specs::Numbered::sort_at))]
pub(crate) fn sort_at(op: u64, answer: u64) -> Sort
    ensures { result ≡ sort_at op answer }
{
    if op < 16 {
        Sort::Timer(kind_at(op), answer_at(answer))
    } else if op < 23 {
        Sort::Cpu(queue_kind_at(op - 16), queue_answer_at(answer))
    } else {
        Sort::Own(own_kind_at(op - 23))
    }
}

/// The number of whose history it is.
#[tactic(auto, unfolding(crate::specs::Numbered::whose_at))]
pub(crate) fn whose_number(whose: Whose) -> u64
    ensures number { whose_at result ≡ whose }
    ensures bounded { result < 3 }
{
    match whose {
        Whose::Timer => 0,
        Whose::Cpu => 1,
        Whose::Actor => 2,
    }
}

/// Whose history it is by its number.
#[tactic(auto, unfolding(crate::specs::Numbered::whose_at))]
pub(crate) fn whose_at(number: u64) -> Whose
    ensures { result ≡ whose_at number }
{
    match number {
        0 => Whose::Timer,
        1 => Whose::Cpu,
        _ => Whose::Actor,
    }
}

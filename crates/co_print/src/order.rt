//! The notes of all lists, place by place and in each place by position: counted first, then put where they belong. They
//! are put into order by parts, each by itself: a part has the notes of some places that follow each other.
//!
//! A note takes 88 bytes, and is read from memory once: as it is counted the 8 bytes are written down that say where it
//! belongs, and the rest is done with these.
ghost use Rattle.std.specs.Prelude.{◌≡◌, ◌≤◌, ◌<◌, ◌+◌, ◌-◌, ◌^◌, ℕ, length, map, replicate, slice_index, OnOk, IfOk};
ghost use Rattle.co_object.specs.Lists.{IsWellFormed};
ghost use Rattle.co_program.specs.Places.{HavePlaces, AllHavePlaces};
ghost use Rattle.co_print.specs.Order.{place_index, place_count, count_in, spot_of, AreCounted, starts_from, HasRoomForOrigins, AreWritten, origins_in, ShowsHistories};

use crate::origin::Origin;
use crate::packing::packed_lists;
use co_object::Note;
use co_packed::PackedNote;
use co_program::{Script, place_index};
use co_sbt::{NoMemory, Room, Seq};
use std::alloc::Global;

/// Where a note belongs in a report: the number of its place, and its position there.
#[derive(Clone, Copy)]
pub(crate) struct Spot {
    place: u32,
    pos: u32,
}

/// What was counted of lists of notes.
#[derive(Drop)]
pub(crate) struct Counted {
    /// The number of notes of each place.
    pub(crate) counts: Seq<usize>,
    /// Where each note of each list belongs.
    pub(crate) spots: Seq<Seq<Spot>>,
}

/// The notes of some places that follow each other, in the report's order.
#[derive(Drop)]
pub struct Order {
    /// Where the notes of each place begin, and behind the last place the end.
    starts: Seq<usize>,
    /// The origins of the notes, place by place, and in each place by position.
    origins: Vec<Origin>,
}

/// The notes of the places from `first` up to `end`, in the report's order.
#[derive(Drop)]
pub(crate) struct Part {
    pub(crate) first: usize,
    pub(crate) end: usize,
    pub(crate) order: Order,
}

impl Order {
    /// The origins of the notes of the place of this number among its places.
    pub fn of_place(&self, place: usize) -> &[Origin]
        requires place { place + 1 < length self.now.starts }
        requires rises { slice_index self.now.starts place ≤ slice_index self.now.starts (place + 1) }
        requires within { slice_index self.now.starts (place + 1) ≤ length self.now.origins.items }
        ensures { result.now ≡ origins_in self.now place }
    {
        let starts = self.starts.as_slice();
        &self.origins.as_slice()[starts[place]..starts[place + 1]]
    }
}

/// How many places a report of the script has. `NoMemory` where they are 2^64 or more.
pub fn place_count(script: &Script) -> Result<usize, NoMemory>
    ensures { IfOk result (λ count. count ≡ place_count script.now) }
{
    let timers = script.timers.as_slice().len();
    let cpus = script.cpus as usize;
    let interrupts = if script.version == 2 { cpus } else { 0 };
    let actors = script
        .clients
        .as_slice()
        .len()
        .checked_add(cpus + interrupts);
    match actors.and_then(|actors| actors.checked_add(timers + cpus)) {
        Some(count) => Ok(count),
        None => Err(NoMemory {}),
    }
}

/// A number of 32 bits. NoMemory from 2^32 on: so many notes, places or actors find no memory.
pub fn short(number: usize) -> Result<u32, NoMemory>
    ensures { IfOk result (λ short. short ≡ number) }
{
    u32::try_from(number).map_err(|_| NoMemory {})
}

/// Where a note belongs. `NoMemory` where the number of its place or its position is 2^32 or more.
fn spot_of(script: &Script, note: &PackedNote) -> Result<Spot, NoMemory>
    requires { place_index script.now note.now.place < 2 ^ 64 }
    ensures { IfOk result (λ spot. spot ≡ spot_of script.now note.now) }
{
    let place = short(place_index(script, note.place()))?;
    let pos = short(note.pos() as usize)?;
    Ok(Spot { place, pos })
}

/// The sum of two numbers of notes. `NoMemory` where it is too large: so many notes find no memory.
pub(crate) fn sum(count: usize, more: usize) -> Result<usize, NoMemory>
    ensures { IfOk result (λ sum. sum ≡ count + more) }
{
    count.checked_add(more).ok_or(NoMemory {})
}

/// Adds the numbers of an actor's notes to those of the places, and gives where each of these notes belongs. `NoMemory`
/// where that is at a place's number or a position of 2^32 or more.
fn count_list(
    alloc: Global,
    script: &Script,
    counts: &mut Seq<usize>,
    notes: &[PackedNote],
) -> Result<Seq<Spot>, NoMemory>
    requires places { length counts.old ≡ place_count script.now }
    requires exist { HavePlaces script.now notes.now }
    ensures places { OnOk result (length counts.new ≡ place_count script.now) }
    ensures each { OnOk result ((i : ℕ) → i < place_count script.now → slice_index counts.new i ≡ slice_index counts.old i + count_in script.now i notes.now) }
    ensures spots { IfOk result (λ spots. spots ≡ map (spot_of script.now) notes.now) }
{
    let mut spots = Room::from_seq(Seq::new(alloc));
    spots.reserve(notes.len())?;
    for note in notes {
        let counted = counts.as_slice();
        let spot = spot_of(script, note)?;
        let place = spot.place as usize;
        let count = sum(counted[place], 1)?;
        counts.replace(place, count);
        spots.push(spot);
    }
    Ok(spots.into_seq())
}

/// The number of notes of each place, and where each note belongs. `NoMemory` where there is no room for them, and where
/// the number of a note's place or its position is 2^32 or more.
pub(crate) fn count_lists(
    alloc: Global,
    script: &Script,
    lists: &[Seq<PackedNote>],
) -> Result<Counted, NoMemory>
    requires { AllHavePlaces script.now lists.now }
    ensures { IfOk result (λ counted. AreCounted script.now lists.now counted) }
{
    let mut counts = Seq::filled(alloc, place_count(script)?, 0)?;
    let mut spots = Seq::new(alloc);
    for notes in lists {
        spots.push(count_list(alloc, script, &mut counts, notes.as_slice())?)?;
    }
    Ok(Counted { counts, spots })
}

/// Where the notes of each place begin, and behind the last place the end.
pub(crate) fn starts_of(alloc: Global, counts: &[usize]) -> Result<Seq<usize>, NoMemory>
    ensures { IfOk result (λ starts. starts ≡ starts_from 0 counts.now) }
{
    let mut starts = Seq::new(alloc);
    let mut start: usize = 0;
    for count in counts {
        starts.push(start)?;
        start = sum(start, *count)?;
    }
    starts.push(start)?;
    Ok(starts)
}

/// Where the origin of the note of a spot stands in the part from place `first` on.
fn location(first: usize, starts: &[usize], spot: &Spot) -> usize
    requires from { first ≤ spot.now.place }
    requires exists { spot.now.place - first < length starts.now }
    requires fits { slice_index starts.now (spot.now.place - first) + spot.now.pos < 2 ^ 64 }
    ensures { result ≡ slice_index starts.now (spot.now.place - first) + spot.now.pos }
{
    starts[spot.place as usize - first] + spot.pos as usize
}

/// Room for so many origins, where nothing is written yet: no actor has the number that stands there.
fn no_origins(alloc: Global, actors: u32, room: usize) -> Result<Vec<Origin>, NoMemory>
    ensures { IfOk result (λ origins. origins.items ≡ replicate room (record { actor = actors; number = 0 })) }
{
    let nowhere = Origin {
        actor: actors,
        number: 0,
    };
    Ok(vec![in alloc; nowhere; room]?)
}

/// Writes the origins of those of an actor's notes that are of the part from place `first` on, each where it belongs. The
/// spots say all of this: no note is looked at.
fn write_list(
    script: &Script,
    lists: &[Seq<PackedNote>],
    spots: &[Seq<Spot>],
    first: usize,
    starts: &[usize],
    origins: &mut [Origin],
    actor: u32,
) -> Result<(), NoMemory>
    requires actor { actor < length lists.now }
    requires spots { spots.now ≡ map (map (spot_of script.now)) lists.now }
    requires room { HasRoomForOrigins script.now lists.now first starts.now (length origins.old) }
    requires written { AreWritten script.now lists.now first starts.now origins.old actor 0 }
    ensures length { OnOk result (length origins.new ≡ length origins.old) }
    ensures written { OnOk result (AreWritten script.now lists.now first starts.now origins.new (actor + 1) 0) }
{
    let _ = script;
    let _ = lists;
    let listed = spots[actor as usize].as_slice();
    let count = short(listed.len())?;
    for number in 0..count {
        let spot = &listed[number as usize];
        let place = spot.place as usize;
        // Each place of the part has a start, and behind the last one's stands the end.
        if first <= place && place - first + 1 < starts.len() {
            let at = location(first, starts, spot);
            origins[at] = Origin { actor, number };
        }
    }
    Ok(())
}

/// The origins of the notes of the part from place `first` on, in the report's order.
fn origins_of(
    alloc: Global,
    script: &Script,
    lists: &[Seq<PackedNote>],
    spots: &[Seq<Spot>],
    first: usize,
    starts: &[usize],
    room: usize,
) -> Result<Vec<Origin>, NoMemory>
    requires spots { spots.now ≡ map (map (spot_of script.now)) lists.now }
    requires room { HasRoomForOrigins script.now lists.now first starts.now room }
    ensures length { IfOk result (λ origins. length origins.items ≡ room) }
    ensures written { IfOk result (λ origins. AreWritten script.now lists.now first starts.now origins.items (length lists.now) 0) }
{
    let actors = short(lists.len())?;
    let mut origins = no_origins(alloc, actors, room)?;
    for actor in 0..actors {
        write_list(
            script,
            lists,
            spots,
            first,
            starts,
            origins.as_mut_slice(),
            actor,
        )?;
    }
    Ok(origins)
}

/// The order of the counted notes of the places from `first` up to `end`. It goes over the spots of all notes, and passes
/// by those of other places.
pub(crate) fn order_from(
    alloc: Global,
    script: &Script,
    lists: &[Seq<PackedNote>],
    counted: &Counted,
    first: usize,
    end: usize,
) -> Result<Order, NoMemory>
    requires places { AllHavePlaces script.now lists.now }
    requires formed { IsWellFormed lists.now }
    requires counted { AreCounted script.now lists.now counted.now }
    requires order { first ≤ end }
    requires end { end ≤ place_count script.now }
    ensures { IfOk result (λ order. ShowsHistories script.now lists.now first end order) }
{
    let counts = &counted.counts.as_slice()[first..end];
    let starts = starts_of(alloc, counts)?;
    let from = starts.as_slice();
    let room = from[counts.len()];
    let origins = origins_of(
        alloc,
        script,
        lists,
        counted.spots.as_slice(),
        first,
        from,
        room,
    )?;
    Ok(Order { starts, origins })
}

/// The notes of all lists, in the report's order: place by place, and in each place by position. It takes time and memory
/// in proportion to the notes and the places, and no sorting. The notes are packed first.
///
/// NoMemory where the order finds no memory, has 2^32 notes of one actor or more, or has a note at a position or in a place
/// whose number is 2^32 or more.
pub fn order_of(alloc: Global, script: &Script, lists: &[Seq<Note>]) -> Result<Order, NoMemory>
    requires places { AllHavePlaces script.now lists.now }
    requires formed { IsWellFormed lists.now }
    ensures { IfOk result (λ order. ShowsHistories script.now lists.now 0 (place_count script.now) order) }
{
    let packed = packed_lists(alloc, lists)?;
    let notes = packed.as_slice();
    let counted = count_lists(alloc, script, notes)?;
    order_from(
        alloc,
        script,
        notes,
        &counted,
        0,
        counted.counts.as_slice().len(),
    )
}

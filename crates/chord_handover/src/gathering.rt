//! Putting the parts of a handover together.
ghost use Rattle.std.specs.Prelude.{◌≡◌, ◌↔◌, ◌-◌, ◌≤◌, ◌&&◌, ◌==◌, ◌++◌, not, All, IsTrue, IfOk, OnOk, OnErr, List, length, filter, find, Some};
ghost use Rattle.std.specs.List.{list_any};
ghost use Rattle.std.specs.Option.{option_copied};
ghost use Rattle.chord_handover.specs.Gather.{AreOf, AreAllThere, AreWhole, GatherIs, IsFitting, TellsPayload, part_in, segment_of, pairs_upto};
ghost use Rattle.chord_handover.specs.Handover.{Part as PartOf, IsPart, part_at, gathered_parts, ticket_of_part};
ghost use Rattle.chord_handover.specs.Known.{segment_in};
ghost use Rattle.chord_handover.specs.Payload.{IsPayload, handover_of_payload};
ghost use Rattle.chord_handover.specs.Passed.{HasPassed, Goes};

use crate::gather::Gather;
use crate::pair_scan::PairScan;
use crate::part::Part;
use crate::payload::Payload;
use chord_map::Pair;
use chord_segment::Segment;
use std::alloc::{AllocError, Global};

/// What the part makes with the buffered parts of its handover. Only a whole payload needs memory.
pub fn gather(alloc: Global, buffered: &[Part], part: &Part) -> Result<Gather, AllocError>
    ensures made { IfOk result (λ gather. GatherIs part.now buffered.now gather) }
    ensures payload { IfOk result (λ gather. TellsPayload gather) }
    ensures whole { OnErr result (AreWhole part.now buffered.now) }
{
    if has_other_count(buffered, part) {
        return Ok(Gather::Unfit);
    }
    if !are_all_there(buffered, part) {
        return Ok(Gather::More);
    }
    let Some(first) = first_segment(buffered, part) else {
        return Ok(Gather::Unfit);
    };
    if !are_parts_of(buffered, part, first) || !are_payload(buffered, part, first) {
        return Ok(Gather::Unfit);
    }
    let segment = first.try_copy()?;
    let pairs = join_pairs(alloc, buffered, part)?;
    Ok(Gather::Whole(Payload::new(segment, pairs)))
}

/// Whether a buffered part of the handover says another number of parts.
fn has_other_count(buffered: &[Part], part: &Part) -> bool
    ensures { result ≡ list_any (λ (other : PartOf). (other.from == part.now.from) && (other.number == part.now.number) && not (other.of == part.now.of)) buffered.now }
{
    buffered.iter().any(|other| other.from == part.from
        && other.number == part.number
        && other.of != part.of)
}

/// The number of buffered parts of the handover.
fn count_buffered(buffered: &[Part], part: &Part) -> usize
    ensures { result ≡ length (filter (λ (other : PartOf). (other.from == part.now.from) && (other.number == part.now.number)) buffered.now) }
{
    buffered
        .iter()
        .filter(|other| other.from == part.from && other.number == part.number)
        .count()
}

/// The buffered part of this number.
fn find_buffered<'a>(buffered: &'a [Part], part: &Part, place: u64) -> Option<&'a Part>
    ensures { option_copied result ≡ find (λ (other : PartOf). (other.from == part.now.from) && (other.number == part.now.number) && (other.place == place)) buffered.now }
{
    buffered.iter().find(|other| other.from == part.from
        && other.number == part.number
        && other.place == place)
}

/// The handover's part of this number.
fn find_part<'a>(buffered: &'a [Part], part: &'a Part, place: u64) -> Option<&'a Part>
    ensures { option_copied result ≡ part_in place (gathered_parts part.now buffered.now) }
{
    match find_buffered(buffered, part, place) {
        Some(other) => Some(other),
        None if part.place == place => Some(part),
        None => None,
    }
}

/// Whether each part number of the handover has a part.
fn are_all_there(buffered: &[Part], part: &Part) -> bool
    ensures { IsTrue result ↔ AreAllThere part.now.of (gathered_parts part.now buffered.now) }
{
    if (count_buffered(buffered, part) as u64) < part.of.saturating_sub(1) {
        return false;
    }
    for i in 0..part.of {
        if find_part(buffered, part, i + 1).is_none() {
            return false;
        }
    }
    true
}

/// The segment in the first part.
fn first_segment<'a>(buffered: &'a [Part], part: &'a Part) -> Option<&'a Segment>
    ensures { segment_in (option_copied result) ≡ segment_of (part_in 1 (gathered_parts part.now buffered.now)) }
{
    match &find_part(buffered, part, 1)?.segment {
        Some(segment) => Some(&**segment),
        None => None,
    }
}

/// Copies of the pairs of all parts, in order.
fn join_pairs(alloc: Global, buffered: &[Part], part: &Part) -> Result<Vec<Pair>, AllocError>
    ensures { IfOk result (λ pairs. pairs.items ≡ pairs_upto part.now.of (gathered_parts part.now buffered.now)) }
{
    let mut pairs = Vec::new(alloc);
    for i in 0..part.of {
        if let Some(other) = find_part(buffered, part, i + 1) {
            push_copies(&mut pairs, &other.pairs)?;
        }
    }
    Ok(pairs)
}

/// Adds copies of the pairs at the end.
fn push_copies(pairs: &mut Vec<Pair>, more: &[Pair]) -> Result<(), AllocError>
    ensures { OnOk result (pairs.new.items ≡ pairs.old.items ++ more.now) }
{
    pairs.reserve(more.len())?;
    for pair in more {
        pairs.push(pair.try_copy()?)?;
    }
    Ok(())
}

/// Continues the scan over the parts before `place` with the pairs of part `place`.
fn pass_place<'a>(
    run: PairScan<'a>,
    buffered: &'a [Part],
    part: &'a Part,
    segment: &Segment,
    place: u64,
) -> Option<PairScan<'a>>
    requires { 1 ≤ place }
    ensures { HasPassed segment.now.segment (pairs_upto (place - 1) (gathered_parts part.now buffered.now)) run.entry → Goes segment.now.segment (pairs_upto place (gathered_parts part.now buffered.now)) result }
{
    match find_part(buffered, part, place) {
        Some(other) => run.walk(segment, &other.pairs),
        None => Some(run),
    }
}

/// Whether the pairs of all parts, in order, make a payload with this segment.
fn are_payload<'a>(buffered: &'a [Part], part: &'a Part, segment: &Segment) -> bool
    ensures { IsTrue result ↔ IsPayload (record { segment = segment.now.segment; pairs = pairs_upto part.now.of (gathered_parts part.now buffered.now) }) }
{
    let mut run = PairScan::new();
    for i in 0..part.of {
        match pass_place(run, buffered, part, segment, i + 1) {
            Some(next) => run = next,
            None => return false,
        }
    }
    true
}

/// Whether another part of the handover goes to this part's receiver, is filled as its number asks,
/// and is the part found under that number.
fn is_fitting(buffered: &[Part], part: &Part, other: &Part) -> bool
    ensures test { IsTrue result ↔ IsFitting part.now (gathered_parts part.now buffered.now) other.now }
    ensures rules { IsPart other.now }
{
    let Some(found) = find_part(buffered, part, other.place) else {
        return false;
    };
    other.to == part.to && other.is_filled() && other.equals(found)
}

/// Whether all parts of the handover are those of a
/// payload of this segment with the pairs of all parts.
fn are_parts_of(buffered: &[Part], part: &Part, segment: &Segment) -> bool
    requires agree { AreOf part.now.of (gathered_parts part.now buffered.now) }
    requires there { AreAllThere part.now.of (gathered_parts part.now buffered.now) }
    requires segment { segment_of (part_in 1 (gathered_parts part.now buffered.now)) ≡ Some segment.now.segment }
    ensures { IsTrue result ↔ All (λ (other : PartOf). other ≡ part_at (handover_of_payload (ticket_of_part part.now) (record { segment = segment.now.segment; pairs = pairs_upto part.now.of (gathered_parts part.now buffered.now) })) other.place) (gathered_parts part.now buffered.now) }
{
    for other in buffered {
        if other.from == part.from
            && other.number == part.number
            && !is_fitting(buffered, part, other)
        {
            return false;
        }
    }
    is_fitting(buffered, part, part)
}

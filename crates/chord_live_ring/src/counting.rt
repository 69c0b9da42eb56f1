//! How often a node did what.
ghost use Rattle.std.specs.Prelude.{◌≡◌};
ghost use Rattle.chord_live_ring.specs.Deeds.{no_counts, one_more, asked, handed_over, counted, counted_if};

use crate::deed::Deed;
use chord_sight::{AskCounts, HandoverCounts, NodeCounts};

fn count_ask(counts: &mut AskCounts, deed: Deed)
    ensures { counts.new ≡ asked deed counts.old }
{
    match deed {
        Deed::Told => counts.told = counts.told.saturating_add(1),
        Deed::Forwarded => counts.forwarded = counts.forwarded.saturating_add(1),
        Deed::Dropped => counts.dropped = counts.dropped.saturating_add(1),
        Deed::Full => counts.full = counts.full.saturating_add(1),
        _ => {}
    }
}

fn count_handover(counts: &mut HandoverCounts, deed: Deed)
    ensures { counts.new ≡ handed_over deed counts.old }
{
    match deed {
        Deed::Gave => counts.given = counts.given.saturating_add(1),
        Deed::Took => counts.taken = counts.taken.saturating_add(1),
        Deed::TookBack => counts.declined = counts.declined.saturating_add(1),
        _ => {}
    }
}

/// A node that did nothing yet.
pub fn no_counts() -> NodeCounts
    ensures { result ≡ no_counts }
{
    NodeCounts {
        asks: AskCounts {
            told: 0,
            forwarded: 0,
            dropped: 0,
            full: 0,
        },
        handovers: HandoverCounts {
            given: 0,
            taken: 0,
            declined: 0,
        },
        ticks: 0,
    }
}

/// Counts one deed.
pub fn count(counts: &mut NodeCounts, deed: Deed)
    ensures { counts.new ≡ counted deed counts.old }
{
    count_ask(&mut counts.asks, deed);
    count_handover(&mut counts.handovers, deed);
    if deed == Deed::Ticked {
        counts.ticks = counts.ticks.saturating_add(1);
    }
}

/// Counts a deed, if there is one.
pub fn count_if(counts: &mut NodeCounts, deed: Option<Deed>)
    ensures { counts.new ≡ counted_if deed counts.old }
{
    if let Some(deed) = deed {
        count(counts, deed);
    }
}

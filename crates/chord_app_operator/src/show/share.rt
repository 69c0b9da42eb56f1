//! The share of the circle that a node holds.
ghost use Rattle.std.specs.Prelude.{◌≡◌, ◌+◌, ◌<◌, ◌^◌, length};
ghost use Rattle.chord_ident.specs.Circle.{walk};
ghost use Rattle.chord_app_operator.specs.Shares.{stretch_length, hundredths_of, share_of};

use chord_ident::Span;
use chord_sight::SegmentSight;

/// A number of identifiers: `turns` whole circles of 2^128, and `rest`.
#[derive(Clone, Copy, Debug, PartialEq, Eq)]
pub struct Stretch {
    pub turns: u64,
    pub rest: u128,
}

impl Stretch {
    /// No identifier.
    pub const NONE: Stretch = Stretch { turns: 0, rest: 0 };

    /// With the identifiers of a span.
    pub fn with(self, span: Span) -> Stretch
        requires { self.turns + 1 < 2 ^ 64 }
        ensures length { stretch_length result ≡ stretch_length self + walk span.after.number span.upto.number }
        ensures turns { result.turns < self.turns + 2 }
    {
        let distance = span.after.distance(span.upto);
        match self.rest.checked_add(distance) {
            Some(rest) if distance != 0 => Stretch { rest, ..self },
            _ => Stretch {
                turns: self.turns + 1,
                rest: self.rest.wrapping_add(distance),
            },
        }
    }

    /// Its hundredths of a percent of the circle, rounded down.
    pub fn hundredths(self) -> u128
        ensures { result ≡ hundredths_of (stretch_length self) }
    {
        let high = self.rest >> 64;
        let low = self.rest % 18_446_744_073_709_551_616;
        let part = (high * 10_000 + low * 10_000 / 18_446_744_073_709_551_616)
            / 18_446_744_073_709_551_616;
        self.turns as u128 * 10_000 + part
    }
}

/// How many hundredths of a percent of the circle are in these segments, rounded down.
pub fn hundredths(segments: &[SegmentSight]) -> u128
    ensures { result ≡ share_of segments.now }
{
    let mut stretch = Stretch::NONE;
    for segment in segments {
        stretch = stretch.with(segment.span);
    }
    stretch.hundredths()
}

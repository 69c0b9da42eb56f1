//! Gaps between the identifiers of nodes.
ghost use Rattle.std.specs.Prelude.{◌≡◌, ◌≢◌, ◌↔◌, ◌⊎◌, [], None, All, IfSome};
ghost use Rattle.chord_ident.specs.Circle.{distance};
ghost use Rattle.chord_app_serve.specs.Gaps.{IsFree, IsBound, IsInGap, IsWidest, IsByMiddle, AreAll, place_in};

use chord_ident::Id;

/// Some identifiers in a row, clockwise behind `after`.
#[derive(Clone, Copy, Debug, PartialEq, Eq)]
pub struct Gap {
    pub after: Id,
    /// How many identifiers they are.
    pub width: u128,
}

impl Gap {
    /// The widest gap behind this identifier that has none of these.
    pub fn behind(after: Id, ids: &[Id]) -> Gap
        ensures free { IsFree ids.now result }
        ensures widest { IsBound ids.now result.width after }
        ensures after { result.after ≡ after }
    {
        let mut width = u128::MAX;
        for id in ids {
            let far = after.distance(*id);
            let before = far.wrapping_sub(1);
            width = width.min(before);
        }
        Gap { after, width }
    }

    /// The widest gap behind one of these identifiers that has none of them. None if there are
    /// none.
    pub fn widest(ids: &[Id]) -> Option<Gap>
        ensures some { IfSome result (IsWidest ids.now) }
        ensures none { result ≡ None → ids.now ≡ [] }
    {
        let mut widest: Option<Gap> = None;
        for id in ids {
            let gap = Gap::behind(*id, ids);
            widest = match widest {
                Some(found) if gap.width <= found.width => Some(found),
                _ => Some(gap),
            };
        }
        widest
    }

    /// An identifier in the second half of the gap, close to its middle. `draw` says which.
    #[tactic(auto, unfolding(chord_ident::specs::Circle::distance))]
    pub fn by_middle(self, draw: u64) -> Option<Id>
        ensures some { IfSome result (λ id. IsInGap self id.number) }
        ensures place { IfSome result (λ id. distance self.after.number id.number ≡ place_in self draw) }
        ensures none { (result ≡ None) ↔ (self.width ≡ 0) }
    {
        if self.width == 0 {
            return None;
        }
        let place = 1 + self.width / 2 + (draw as u128).min(self.width / 8);
        Some(Id::new(self.after.value().wrapping_add(place)))
    }
}

/// An identifier that is none of these, by the middle of the widest gap between them. `draw` says
/// which. None if there are none, or none is free.
pub fn free_id(ids: &[Id], draw: u64) -> Option<Id>
    ensures some { IfSome result (λ id. All (λ other. other.number ≢ id.number) ids.now) }
    ensures middle { IfSome result (IsByMiddle ids.now draw) }
    ensures none { result ≡ None → (ids.now ≡ []) ⊎ AreAll ids.now }
{
    Gap::widest(ids)?.by_middle(draw)
}

//! How the store of a node, and who holds an identifier, are shown to the operator of a ring.
ghost use Rattle.std.specs.Prelude.{◌≡◌};
ghost use Rattle.chord_app_serve.specs.Shown.{holder_with, store_shown};

use chord_app_operator::{Holder, StoreKind};

/// The kind of a node's store. One that notes its count is a list.
pub fn store_shown(store: chord_app_plan::StoreKind) -> StoreKind
    ensures { result ≡ store_shown store }
{
    match store {
        chord_app_plan::StoreKind::Tree => StoreKind::Tree,
        chord_app_plan::StoreKind::List | chord_app_plan::StoreKind::Noted => StoreKind::List,
        chord_app_plan::StoreKind::Capped(_) => StoreKind::Capped,
    }
}

/// Who holds an identifier, as it was told before and as one more node tells it: a node that holds
/// it counts before a handover of it.
pub fn holder_with(known: Holder, told: Option<chord_model::Holder>) -> Holder
    ensures { result ≡ holder_with known told }
{
    match (known, told) {
        (Holder::Node(node), _) => Holder::Node(node),
        (_, Some(chord_model::Holder::Node(node))) => Holder::Node(node),
        (_, Some(chord_model::Holder::UnderWay { from, to, number })) => {
            Holder::Handover { from, to, number }
        }
        (_, None) => known,
    }
}

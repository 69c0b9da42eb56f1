//! Members of a ring as rows.
ghost use Rattle.std.specs.Prelude.{◌≡◌};
ghost use Rattle.std.specs.Option.{option_copied};
ghost use Rattle.chord_ring.specs.Rows.{row_at};

use chord_links::Links;

/// A member's number and its links.
#[derive(Clone, Copy)]
pub struct MemberRow {
    pub number: u64,
    pub links: Links,
}

/// The links in the first row of this number.
pub(crate) fn links_in(rows: &[MemberRow], number: u64) -> Option<&Links>
    ensures { option_copied result ≡ row_at number rows.now }
{
    for row in rows {
        if row.number == number {
            return Some(&row.links);
        }
    }
    None
}

//! Which nodes of a ring are shown.
ghost use Rattle.std.specs.Prelude.{◌≡◌, option_copied};
ghost use Rattle.chord_app_operator.specs.Rows.{is_shown, rows_asked};

use super::fault::Fault;
use chord_sight::Phase;

/// Which nodes of a ring are shown.
#[derive(Clone, Copy, Debug, PartialEq, Eq)]
pub enum Rows {
    /// Those that are not gone.
    Present,
    /// Also those that are gone and whose slots were not used again.
    All,
}

impl Rows {
    /// Those that the query of `/ring` asks for.
    pub fn of_query(query: Option<&str>) -> Result<Rows, Fault>
        ensures { result ≡ rows_asked (option_copied query.entry) }
    {
        match query.unwrap_or("") {
            "" => Ok(Rows::Present),
            "all" => Ok(Rows::All),
            _ => Err(Fault::UnknownParameter),
        }
    }

    /// Whether a node in this phase is shown.
    pub fn has(self, phase: Phase) -> bool
        ensures { result ≡ is_shown self phase }
    {
        match (self, phase) {
            (Rows::Present, Phase::Gone) => false,
            _ => true,
        }
    }
}

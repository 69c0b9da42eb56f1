//! Reading the query of `/pairs`.
ghost use Rattle.std.specs.Prelude.{◌≡◌, option_copied, option_and_then};
ghost use Rattle.chord_app_operator.specs.Paths.{number_of};
ghost use Rattle.chord_app_operator.specs.Queries.{id_of, from_1_to_1000, with_after, with_limit, with_parameter, with_parameters, first_pairs, pairs_request};

use super::calls::PairsRequest;
use super::fault::Fault;
use super::paths::number_of_digits;
use chord_ident::Id;
use form_urlencoded::raw_pairs;
use std::str;

/// The identifier that 32 hexadecimal digits write.
pub(super) fn id_of_digits(text: &str) -> Option<Id>
    ensures { result ≡ id_of text.now }
{
    Id::of_hex(text).ok()
}

/// A number from 1 to 1,000.
fn limit_of_digits(text: &[u8]) -> Option<u64>
    ensures { result ≡ option_and_then from_1_to_1000 (number_of text.now) }
{
    match number_of_digits(text) {
        Some(number) if 1 <= number && number <= 1000 => Some(number),
        _ => None,
    }
}

fn id_of_bytes(text: &[u8]) -> Option<Id>
    ensures { result ≡ id_of text.now }
{
    match str::from_utf8(text) {
        Ok(text) => id_of_digits(text),
        Err(_) => None,
    }
}

impl PairsRequest {
    // The request for pairs behind this identifier.
    fn with_after(self, after: Option<Id>) -> Result<PairsRequest, Fault>
        ensures { result ≡ with_after self after }
    {
        match after {
            Some(id) => Ok(PairsRequest {
                after: Some(id),
                ..self
            }),
            None => Err(Fault::BadAfter),
        }
    }

    // The request for at most this many pairs.
    fn with_limit(self, limit: Option<u64>) -> Result<PairsRequest, Fault>
        ensures { result ≡ with_limit self limit }
    {
        match limit {
            Some(limit) => Ok(PairsRequest { limit, ..self }),
            None => Err(Fault::BadLimit),
        }
    }

    // The request with one more parameter.
    fn with(self, name: &[u8], value: &[u8]) -> Result<PairsRequest, Fault>
        ensures { result ≡ with_parameter self (name.now, value.now) }
    {
        match name {
            b"after" => self.with_after(id_of_bytes(value)),
            b"limit" => self.with_limit(limit_of_digits(value)),
            _ => Err(Fault::UnknownParameter),
        }
    }

    /// What a query asks for: `after`, 32 hexadecimal digits, and `limit`, a number from 1 to
    /// 1,000. The limit is 100 where it is absent.
    pub fn of_query(query: Option<&str>) -> Result<PairsRequest, Fault>
        ensures { result ≡ pairs_request (option_copied query.entry) }
    {
        let query = query.unwrap_or("");
        let mut request = PairsRequest {
            after: None,
            limit: 100,
        };
        for (name, value) in raw_pairs(query.as_bytes()) {
            request = request.with(name, value)?;
        }
        Ok(request)
    }
}

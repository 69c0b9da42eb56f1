//! The port's own hosts and origins.
ghost use Rattle.std.specs.Prelude.{◌≡◌, IfOk};
ghost use Rattle.chord_app_operator.specs.Sites.{is_own_host, is_own_origin};

use std::alloc::{AllocError, Global};
use std::marker::Model;

/// Where an operator is served: a port on loopback. A page of another site can send requests to it,
/// with a foreign `Origin`, or with a foreign `Host` where that site's name leads to loopback.
#[derive(Debug, Drop)]
pub struct Site {
    port: u16,
    address_host: String,
    name_host: String,
    address_origin: String,
    name_origin: String,
}

impl Model for Site {
    ghost use Rattle.std.specs.Prelude.{◌≡◌, ℕ, ◌++◌, codes, decimal, string_bytes};

    ghost Value = { ℕ };

    ghost view = { λ s. s.port };

    ghost invariant = { λ s. (string_bytes s.address_host ≡ codes "127.0.0.1:" ++ decimal s.port)
        × (string_bytes s.name_host ≡ codes "localhost:" ++ decimal s.port)
        × (string_bytes s.address_origin ≡ codes "http://127.0.0.1:" ++ decimal s.port)
        × (string_bytes s.name_origin ≡ codes "http://localhost:" ++ decimal s.port) };
}

impl Site {
    /// The site at this port.
    pub fn new(alloc: Global, port: u16) -> Result<Site, AllocError>
        ensures { IfOk result (λ site. site ≡ port) }
    {
        let address_host = format!(in alloc; "127.0.0.1:{port}")?;
        let name_host = format!(in alloc; "localhost:{port}")?;
        let address_origin = format!(in alloc; "http://127.0.0.1:{port}")?;
        let name_origin = format!(in alloc; "http://localhost:{port}")?;
        Ok(Site {
            port,
            address_host,
            name_host,
            address_origin,
            name_origin,
        })
    }

    /// Whether the host is one of the port's own.
    pub fn is_own_host(&self, host: &[u8]) -> bool
        ensures { result ≡ is_own_host self.now host.now }
    {
        host == self.address_host.as_bytes() || host == self.name_host.as_bytes()
    }

    /// Whether the origin is one of the port's own.
    pub fn is_own_origin(&self, origin: &[u8]) -> bool
        ensures { result ≡ is_own_origin self.now origin.now }
    {
        origin == self.address_origin.as_bytes() || origin == self.name_origin.as_bytes()
    }
}

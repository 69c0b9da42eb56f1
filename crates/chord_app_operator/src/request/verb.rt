//! The methods.
ghost use Rattle.std.specs.Prelude.{◌≡◌};
ghost use Rattle.chord_app_operator.specs.Words.{allows, allowed_text};

/// What a call does: it looks, or it acts.
#[derive(Clone, Copy, Debug, PartialEq, Eq)]
pub enum Verb {
    /// By GET, or HEAD for the same answer without its body.
    Look,
    /// By POST.
    Act,
}

impl Verb {
    /// Whether a request with this method may do it.
    pub fn allows(self, method: &str) -> bool
        ensures { result ≡ allows self method.now }
    {
        match self {
            Verb::Look => method == "GET" || method == "HEAD",
            Verb::Act => method == "POST",
        }
    }

    /// The methods that do it, as the field `Allow` has them.
    pub fn allowed_text(self) -> &'static str
        ensures { result.now ≡ allowed_text self }
    {
        match self {
            Verb::Look => "GET, HEAD",
            Verb::Act => "POST",
        }
    }
}

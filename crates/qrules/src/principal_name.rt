//! Names of principals.
ghost use Rattle.std.specs.Prelude.{◌≡◌, ℕ, List, string_bytes, nat_eq};
ghost use Rattle.std.proofs.Common.{rules};
ghost use Rattle.std.specs.Cmp.Lexicographic.{pointwise};
ghost use Rattle.std.specs.Cmp.Rules.{comparing};

use std::marker::Model;

/// The name of a principal in reports, which contracts see as its bytes. Any text may be one.
#[derive(Debug, Drop)]
pub struct PrincipalName {
    text: String,
}

impl Model for PrincipalName {
    ghost Value = { List ℕ };

    ghost view = { λ n. string_bytes n.text };
}

impl PrincipalName {
    /// The name that the text is, whatever it is: which names are taken is judged by a setup.
    pub fn new(text: String) -> Self
        ensures { result ≡ string_bytes text }
    {
        PrincipalName { text }
    }

    /// The text of the name.
    pub fn as_str(&self) -> &str
        ensures { result.now ≡ self.now }
    {
        self.text.as_str()
    }

    /// Gives the text back.
    pub fn into_string(self) -> String
        ensures { string_bytes result ≡ self }
    {
        self.text
    }
}

impl PartialEq for PrincipalName {
    ghost eq = { pointwise nat_eq };

    ghost laws = { Prim.search (comparing, rules) };

    fn eq(&self, other: &PrincipalName) -> bool {
        self.text.as_str() == other.text.as_str()
    }
}

impl Eq for PrincipalName {
    ghost laws = { Prim.search (comparing, rules) };
}

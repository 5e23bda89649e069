//! A word of the command line.
ghost use Rattle.std.specs.Prelude.{◌≡◌, string_bytes};

use std::marker::Model;

/// A word, which contracts see as its bytes.
#[derive(Drop)]
pub struct Arg {
    text: String,
}

impl Model for Arg {
    ghost use Rattle.std.specs.Prelude.{List, ℕ, string_bytes};

    ghost Value = { List ℕ };

    ghost view = { λ arg. string_bytes arg.text };
}

impl Arg {
    pub fn new(text: String) -> Arg
        ensures { result ≡ string_bytes text }
    {
        Arg { text }
    }

    pub fn as_str(&self) -> &str
        ensures { result.now ≡ self.now }
    {
        self.text.as_str()
    }
}

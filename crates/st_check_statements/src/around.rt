//! Where a statement stands.
ghost use Rattle.std.specs.Prelude.{◌≡◌};
ghost use Rattle.st_check_statements.specs.Statements.{inside_loop};

use std::marker::Model;

/// Where a statement stands.
#[derive(Drop)]
pub struct Around<'a> {
    /// Whether a loop is around it.
    pub in_loop: bool,
    /// The variables that the FOR loops around it count, from the outside in.
    pub counters: &'a [&'a [u8]],
}

impl<'a> Model for Around<'a> {
    ghost use Rattle.st_check_statements.specs.Statements.{Around};
    ghost use Rattle.std.specs.Prelude.{map};

    ghost Value = { Around };

    ghost view = { λ a. record { in_loop = a.in_loop; counters = map (λ n. n.now) a.counters.now } };
}

impl<'a> Around<'a> {
    /// Inside a loop that counts no variable, which stands there.
    pub fn inside_loop(&self) -> Around<'a>
        ensures { result ≡ inside_loop self.now }
    {
        Around {
            in_loop: true,
            counters: self.counters,
        }
    }
}

//! The types that literals and numbers have by themselves (2.2).
ghost use Rattle.std.specs.Prelude.{◌≡◌};
ghost use Rattle.st_types.specs.OwnTypes.{literal_own, or_lint};

use st_tree::tree::Constant;
use st_values::Elem;

/// The type that a literal has by itself. A number has none.
pub fn literal_own(literal: &Constant) -> Option<Elem>
    ensures { result ≡ literal_own literal.now }
{
    match literal {
        Constant::Integer(_) => None,
        Constant::Typed(_, value) => Some(value.get().elem),
        Constant::Duration(_) => Some(Elem::Time),
        Constant::Bool(_, _) => Some(Elem::Bool),
    }
}

/// The type, or else LINT: a part has it that has no type by itself, where none is due.
pub fn or_lint(own: Option<Elem>) -> Elem
    ensures { result ≡ or_lint own }
{
    own.unwrap_or(Elem::Lint)
}

//! Which types the operators take (3.3.1, table 55).
ghost use Rattle.std.specs.Prelude.{◌≡◌};
ghost use Rattle.st_operators.specs.Operators.{complements, is_bits, is_comparison, is_integer, negates, takes};

use st_tree::BinOp;
use st_values::{Class, Elem};

/// Whether the type is one of SINT to ULINT.
pub fn is_integer(elem: Elem) -> bool
    ensures { result ≡ is_integer elem }
{
    matches!(elem.class(), Class::Integer)
}

/// Whether the type is one of BYTE to LWORD.
pub fn is_bits(elem: Elem) -> bool
    ensures { result ≡ is_bits elem }
{
    matches!(elem.class(), Class::BitString)
}

/// Whether `-` takes an operand of the type.
pub fn negates(elem: Elem) -> bool
    ensures { result ≡ negates elem }
{
    is_integer(elem) || elem.is(Elem::Time)
}

/// Whether NOT takes an operand of the type.
pub fn complements(elem: Elem) -> bool
    ensures { result ≡ complements elem }
{
    elem.is(Elem::Bool) || is_bits(elem)
}

/// Whether the operator compares its operands.
pub fn is_comparison(operator: BinOp) -> bool
    ensures { result ≡ is_comparison operator }
{
    matches!(
        operator,
        BinOp::Eq | BinOp::Ne | BinOp::Lt | BinOp::Gt | BinOp::Le | BinOp::Ge
    )
}

/// Whether the operator takes operands of the type. A comparison takes any.
pub fn takes(operator: BinOp, elem: Elem) -> bool
    ensures { result ≡ takes operator elem }
{
    match operator {
        BinOp::Add | BinOp::Sub => negates(elem),
        BinOp::Mul | BinOp::Div | BinOp::Mod => is_integer(elem),
        BinOp::And | BinOp::Or | BinOp::Xor => complements(elem),
        _ => true,
    }
}

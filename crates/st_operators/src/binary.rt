//! The operators between two operands (IEC 61131-3:2003, 3.3.1, table 55).
ghost use Rattle.std.specs.Prelude.{◌≡◌, Ok, IfOk};
ghost use Rattle.st_values.specs.Values.{IsValue, truth};
ghost use Rattle.st_operators.specs.Operators.{applied, type_given, Takes};

use crate::arithmetic::{difference, product, quotient, remainder, sum};
use crate::bits::{conjunction, disjunction, exclusion};
use st_tree::BinOp;
use st_values::{Value, truth};
use thiserror::Error;

/// A divisor of `/` or `MOD` that is 0.
#[derive(Clone, Copy, Debug, PartialEq, Eq, Error)]
#[error("a divisor is 0")]
pub struct ZeroDivisor;

/// What an operator gives at two values of one type, which it takes. Results wrap to the width of their type, `/` rounds toward
/// 0, `MOD` has the sign of the dividend, and a comparison gives a BOOL.
///
/// # Errors
/// Where a divisor is 0, and nowhere else.
pub fn apply(op: BinOp, a: Value, b: Value) -> Result<Value, ZeroDivisor>
    requires { Takes op a b }
    ensures value { result ≡ applied op a b }
    ensures in_range { IfOk result (λ value. IsValue value) }
    ensures elem { IfOk result (λ value. value.elem ≡ type_given op a.elem) }
{
    match op {
        BinOp::Add => Ok(sum(a, b)),
        BinOp::Sub => Ok(difference(a, b)),
        BinOp::Mul => Ok(product(a, b)),
        BinOp::Div => quotient(a, b),
        BinOp::Mod => remainder(a, b),
        BinOp::And => Ok(conjunction(a, b)),
        BinOp::Or => Ok(disjunction(a, b)),
        BinOp::Xor => Ok(exclusion(a, b)),
        BinOp::Eq => Ok(truth(a.bits == b.bits)),
        BinOp::Ne => Ok(truth(a.bits != b.bits)),
        BinOp::Lt => Ok(truth(a.bits < b.bits)),
        BinOp::Gt => Ok(truth(b.bits < a.bits)),
        BinOp::Le => Ok(truth(a.bits <= b.bits)),
        BinOp::Ge => Ok(truth(b.bits <= a.bits)),
    }
}

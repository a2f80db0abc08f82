//! Operators, and the types that they take (3.3.1, table 55).
ghost use Rattle.std.specs.Prelude.{◌≡◌, Some};
ghost use Rattle.st_operators.specs.Operators.{is_comparison};
ghost use Rattle.st_types.specs.OwnTypes.{compares};
ghost use Rattle.st_check_expressions.specs.Inside.{complements_due, fits_chain, further_type, negates_due};
ghost use Rattle.st_check_expressions.specs.Known.{all_combine, all_compare, combines};
ghost use Rattle.st_check_expressions.specs.Nodes.{operators_in};

use st_operators::{complements, is_comparison, negates, takes};
use st_tree::BinOp;
use st_tree::tree::Operation;
use st_values::Elem;

/// Whether `-` takes an operand of the type that is due, or that can't be known.
pub fn negates_due(due: Option<Elem>) -> bool
    ensures { result ≡ negates_due due }
{
    match due {
        Some(elem) => negates(elem),
        None => true,
    }
}

/// Whether NOT takes an operand of the type that is due, or that can't be known.
pub fn complements_due(due: Option<Elem>) -> bool
    ensures { result ≡ complements_due due }
{
    match due {
        Some(elem) => complements(elem),
        None => true,
    }
}

/// Whether an operator takes operands of the type and gives a value of it. A comparison gives a BOOL.
fn combines(operator: BinOp, elem: Elem) -> bool
    ensures { result ≡ combines operator elem }
{
    !is_comparison(operator) && takes(operator, elem)
}

/// Whether all operators take operands of the type and give a value of it.
fn all_combine(operations: &[Operation], elem: Elem) -> bool
    ensures { result ≡ all_combine (operators_in operations.now) elem }
{
    operations
        .iter()
        .map(|operation| operation.operator)
        .all(|operator| combines(operator, elem))
}

/// Whether all operators compare.
fn all_compare(operations: &[Operation]) -> bool
    ensures { result ≡ all_compare (operators_in operations.now) }
{
    operations
        .iter()
        .map(|operation| operation.operator)
        .all(|operator| is_comparison(operator))
}

/// Whether the first operator compares.
pub fn compares(operations: &[Operation]) -> bool
    ensures { result ≡ compares (operators_in operations.now) }
{
    match operations.first() {
        Some(operation) => is_comparison(operation.operator),
        None => false,
    }
}

/// The type at which the operands behind the second are taken: BOOL where the first operator compares.
pub fn further_type(operations: &[Operation], due: Option<Elem>) -> Option<Elem>
    ensures { result ≡ further_type (operators_in operations.now) due }
{
    if compares(operations) {
        Some(Elem::Bool)
    } else {
        due
    }
}

/// Whether operators are of one kind and give what is due, or what can't be known.
pub fn fits_chain(operations: &[Operation], due: Option<Elem>) -> bool
    ensures { result ≡ fits_chain (operators_in operations.now) due }
{
    match due {
        Some(due) => fits_typed(operations, due),
        None => !compares(operations) || all_compare(operations),
    }
}

/// Whether operators are of one kind and give what is due: all of them combine values of the type that is due, or all compare and a
/// BOOL is due.
fn fits_typed(operations: &[Operation], due: Elem) -> bool
    ensures { result ≡ fits_chain (operators_in operations.now) (Some due) }
{
    if compares(operations) {
        due.is(Elem::Bool) && all_compare(operations)
    } else {
        all_combine(operations, due)
    }
}

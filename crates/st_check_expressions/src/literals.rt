//! Literals (2.2).
#![tactic(auto, unfolding(st_faults::specs::Faults::offer_all))]

ghost use Rattle.std.specs.Prelude.{◌≡◌, Some};
ghost use Rattle.st_values.specs.Values.{in_range};
ghost use Rattle.st_faults.specs.Faults.{offer_all};
ghost use Rattle.st_tree.specs.Literals.{number_of};
ghost use Rattle.st_check_expressions.specs.Known.{due_literal_faults, is_held, is_misstated, literal_faults, literal_position, stated_faults};

use st_faults::{FirstFault, Rule};
use st_tree::tree::{Constant, Duration, Position, SignedInteger};
use st_values::{Elem, Value, is_value};

/// Where a literal stands.
pub fn literal_position(literal: &Constant) -> Position
    ensures { result ≡ literal_position literal.now }
{
    match literal {
        Constant::Integer(number) => number.position,
        Constant::Typed(position, _) => *position,
        Constant::Duration(duration) => duration.position,
        Constant::Bool(position, _) => *position,
    }
}

/// Whether no type holds a literal: a number above 2^64 - 1 or below -2^63, or what is out of the range of the type that it
/// names itself.
pub fn is_misstated(literal: &Constant) -> bool
    ensures { result ≡ is_misstated literal.now }
{
    match literal {
        Constant::Integer(number) => !is_held(number),
        Constant::Typed(_, value) => !is_value(value.get()),
        Constant::Duration(duration) => !is_value(duration_value(duration)),
        Constant::Bool(_, _) => false,
    }
}

/// A duration as a value of TIME, in its range or not.
fn duration_value(duration: &Duration) -> Value
    ensures elem { result.elem ≡ Elem.Time }
    ensures bits { result.bits ≡ duration.now.milliseconds }
{
    Value {
        elem: Elem::Time,
        bits: duration.milliseconds.get(),
    }
}

/// Offers the faults of a literal in a part that begins at `at`, where a type is due, or one that can't be known.
pub fn check_literal(literal: &Constant, at: Position, due: Option<Elem>, first: &mut FirstFault)
    ensures { first.new ≡ offer_all first.old (due_literal_faults literal.now at due) }
{
    match due {
        Some(due) => check_typed(literal, at, due, first),
        // No case of typing rests on this rule.
        None => first.offer_when(
            is_misstated(literal),
            literal_position(literal),
            Rule::OutOfRange,
        ),
    }
}

/// Offers the faults of a literal in a part that begins at `at`, where a type is due.
fn check_typed(literal: &Constant, at: Position, due: Elem, first: &mut FirstFault)
    ensures { first.new ≡ offer_all first.old (literal_faults literal.now at due) }
{
    match literal {
        Constant::Integer(number) => check_number(number, at, due, first),
        Constant::Typed(position, value) => {
            let value = value.get();
            check_stated(!is_value(value), value.elem, *position, at, due, first);
        }
        Constant::Duration(duration) => {
            let is_misstated = !is_value(duration_value(duration));
            check_stated(is_misstated, Elem::Time, duration.position, at, due, first);
        }
        Constant::Bool(position, _) => check_stated(false, Elem::Bool, *position, at, due, first),
    }
}

/// Offers the faults of a number.
fn check_number(number: &SignedInteger, at: Position, due: Elem, first: &mut FirstFault)
    ensures { first.new ≡ offer_all first.old (literal_faults (Constant.Integer number.now)
        at due) }
{
    if due.is(Elem::Time) {
        // Typing rests on this rule in its case `integer`.
        if is_held(number) {
            first.offer(at, Rule::TypeMismatch);
        } else {
            first.offer(number.position, Rule::OutOfRange);
        }
    } else {
        // Typing rests on this rule in its case `integer`: no number is wrapped.
        first.offer_when(!number_fits(number, due), number.position, Rule::OutOfRange);
    }
}

/// Offers the faults of a literal at `position` that names its type.
fn check_stated(
    is_misstated: bool,
    stated: Elem,
    position: Position,
    at: Position,
    due: Elem,
    first: &mut FirstFault,
)
    ensures { first.new ≡ offer_all first.old (stated_faults is_misstated stated position at due) }
{
    if is_misstated {
        // Typing rests on this rule in its cases `stated` and `duration`: no number is wrapped.
        first.offer(position, Rule::OutOfRange);
    } else {
        // Typing rests on this rule in its cases `stated`, `duration`, `false_is` and `true_is`.
        first.offer_when(!stated.is(due), at, Rule::TypeMismatch);
    }
}

/// Whether some type holds a number.
fn is_held(number: &SignedInteger) -> bool
    ensures { result ≡ is_held number.now }
{
    number_fits(number, Elem::Lint) || number_fits(number, Elem::Ulint)
}

/// Whether a number is in the range of a type.
fn number_fits(number: &SignedInteger, elem: Elem) -> bool
    ensures { result ≡ in_range elem (number_of number.now) }
{
    let magnitude = number.magnitude.get();
    if number.is_negative {
        magnitude == 0 || (elem.is_signed() && magnitude <= elem.limit())
    } else {
        magnitude < elem.limit()
    }
}

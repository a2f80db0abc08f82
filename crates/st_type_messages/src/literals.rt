//! What is said of literals that are out of range.
ghost use Rattle.std.specs.Prelude.{◌≡◌};
ghost use Rattle.st_type_messages.specs.Literals.{range_cause, wider_than};

use crate::cause::Cause;
use crate::rows::tell;
use st_messages::{Draft, Lexed, Slot};
use st_sites::Site;
use st_tree::tree::{Constant, Expression, SignedInteger};
use st_types::Due;
use st_values::Elem;

/// Says which range a literal or a bound is outside of.
pub fn explain_range(draft: &mut Draft, lexed: Lexed<'_>, at: u32, site: Option<Site<'_>>) {
    if let Some(Site::Bound(upper, Some(lower))) = site
        && is_within_lint(upper)
    {
        let (sign, number) = lexed.literal(at);
        let (lower_sign, lower_number) = lexed.literal(lower.position.number);
        let slots = [
            Slot::Bytes(sign),
            Slot::Bytes(number),
            Slot::Bytes(lower_sign),
            Slot::Bytes(lower_number),
        ];
        tell(draft, Cause::BoundsCross, &slots);
    } else {
        say_outside(draft, lexed, at, range_at(site));
    }
}

/// The type whose range what stands at a token is outside of.
fn range_at(site: Option<Site<'_>>) -> Option<Elem> {
    match site? {
        Site::Bound(_, _) => Some(Elem::Lint),
        Site::Expression(Expression::Constant(constant), due)
        | Site::Label(constant, due)
        | Site::Initial(constant, due) => due_of(constant, due),
        Site::Expression(_, Due::Type(elem)) => Some(elem),
        Site::Association(_) => Some(Elem::Time),
        _ => None,
    }
}

/// The type whose range a literal is outside of: the one that it names itself, or the one that is due.
fn due_of(constant: &Constant, due: Due) -> Option<Elem> {
    match (constant, due) {
        (Constant::Typed(_, value), _) => Some(value.get().elem),
        (Constant::Duration(_), _) => Some(Elem::Time),
        (_, Due::Type(elem)) => Some(elem),
        _ => None,
    }
}

/// Says that a literal is outside the range of a type, or of all types.
fn say_outside(draft: &mut Draft, lexed: Lexed<'_>, at: u32, elem: Option<Elem>) {
    let (sign, number) = lexed.literal(at);
    match elem {
        Some(elem) => {
            let slots = [
                Slot::Bytes(sign),
                Slot::Bytes(number),
                Slot::Bytes(elem.name()),
                Slot::Words(range_of(elem)),
                Slot::Words(wider_than(elem)),
            ];
            tell(draft, range_cause(elem), &slots);
        }
        None => tell(
            draft,
            Cause::OutOfAll,
            &[Slot::Bytes(sign), Slot::Bytes(number)],
        ),
    }
}

/// The range of a type.
pub fn range_of(elem: Elem) -> &'static str {
    match elem {
        Elem::Bool => "0 and 1, or FALSE and TRUE",
        Elem::Sint => "-128 to 127",
        Elem::Int => "-32768 to 32767",
        Elem::Dint => "-2147483648 to 2147483647",
        Elem::Lint => "-9223372036854775808 to 9223372036854775807",
        Elem::Usint | Elem::Byte => "0 to 255",
        Elem::Uint | Elem::Word => "0 to 65535",
        Elem::Udint | Elem::Dword => "0 to 4294967295",
        Elem::Ulint | Elem::Lword => "0 to 18446744073709551615",
        Elem::Time => "T#-9223372036854775808ms to T#9223372036854775807ms",
    }
}

/// What is said of a number that a type doesn't hold.
fn range_cause(elem: Elem) -> Cause
    ensures { result ≡ range_cause elem }
{
    match elem {
        Elem::Bool => Cause::OutOfBool,
        Elem::Lint | Elem::Ulint | Elem::Lword | Elem::Time => Cause::OutOfRange,
        _ => Cause::OutOfNarrow,
    }
}

/// A type that is wider. It is empty where none is.
fn wider_than(elem: Elem) -> &'static str
    ensures { result.now ≡ wider_than elem }
{
    match elem {
        Elem::Sint => "INT",
        Elem::Usint => "UINT",
        Elem::Int => "DINT",
        Elem::Uint => "UDINT",
        Elem::Dint => "LINT",
        Elem::Udint => "ULINT",
        Elem::Byte => "WORD",
        Elem::Word => "DWORD",
        Elem::Dword => "LWORD",
        _ => "",
    }
}

/// Whether a bound is in the range of LINT.
fn is_within_lint(bound: &SignedInteger) -> bool {
    let limit = Elem::Lint.limit();
    let distance = bound.magnitude.get();
    distance < limit || (distance == limit && bound.is_negative)
}

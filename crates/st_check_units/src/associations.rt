//! What steps are associated with (2.6.4).
ghost use Rattle.std.specs.List.{flat_map};
ghost use Rattle.std.specs.Prelude.{◌≡◌};
ghost use Rattle.st_faults.specs.Faults.{offer_all};
ghost use Rattle.st_types.specs.Scopes.{scope_at};
ghost use Rattle.st_check_expressions.specs.Variables.{is_fixed_purpose};
ghost use Rattle.st_check_units.specs.Charts.{associated_faults, association_faults, duration_faults, is_boolean_type, is_qualifier, is_timed, is_untimed, qualifier_faults};

use st_faults::{FirstFault, Rule};
use st_scopes::Scope;
use st_tree::tree::{ActionQualifier, Association, Duration, Identifier};
use st_types::{Purpose, Symbol};
use st_values::{Elem, Value, is_value};

/// Whether a qualifier is written with a duration.
fn is_timed(qualifier: &[u8]) -> bool
    ensures { result ≡ is_timed qualifier.now }
{
    qualifier.eq_ignore_ascii_case(b"L") || qualifier.eq_ignore_ascii_case(b"D")
}

/// Whether a qualifier is written without a duration.
fn is_untimed(qualifier: &[u8]) -> bool
    ensures { result ≡ is_untimed qualifier.now }
{
    qualifier.eq_ignore_ascii_case(b"N")
        || qualifier.eq_ignore_ascii_case(b"S")
        || qualifier.eq_ignore_ascii_case(b"R")
        || qualifier.eq_ignore_ascii_case(b"P")
}

/// Whether it is a qualifier, with a duration where it wants one.
fn is_qualifier(qualifier: &ActionQualifier) -> bool
    ensures { result ≡ is_qualifier qualifier.now }
{
    let name = qualifier.name.spelling.as_slice();
    if qualifier.duration.is_some() {
        is_timed(name)
    } else {
        is_untimed(name)
    }
}

/// Offers a fault where a duration is out of range.
#[tactic(auto, unfolding(st_faults::specs::Faults::offer_all))]
fn check_duration(duration: Option<Duration>, first: &mut FirstFault)
    ensures { first.new ≡ offer_all first.old (duration_faults duration) }
{
    if let Some(duration) = duration {
        let value = Value {
            elem: Elem::Time,
            bits: duration.milliseconds.get(),
        };
        // Typing rests on this rule in its case `timed`: no duration is wrapped.
        first.offer_when(!is_value(value), duration.position, Rule::OutOfRange);
    }
}

/// Offers the faults of the qualifier of what is associated under a name.
#[tactic(auto, unfolding(st_faults::specs::Faults::offer_all), using(st_faults::proofs::Least::offer_append))]
fn check_qualifier(name: &Identifier, qualifier: &Option<ActionQualifier>, first: &mut FirstFault)
    ensures { first.new ≡ offer_all first.old (qualifier_faults name.now qualifier.now) }
{
    if let Some(qualifier) = qualifier {
        // Typing rests on this rule in its cases `untimed` and `timed`.
        first.offer_when(
            !is_qualifier(qualifier),
            name.position,
            Rule::MalformedChart,
        );
        check_duration(qualifier.duration, first);
    }
}

/// Whether the type is BOOL.
fn is_boolean_type(elem: Option<Elem>) -> bool
    ensures { result ≡ is_boolean_type elem }
{
    match elem {
        Some(elem) => elem.is(Elem::Bool),
        None => false,
    }
}

/// Whether a variable for this purpose keeps its value.
fn is_fixed_purpose(purpose: Purpose) -> bool
    ensures { result ≡ is_fixed_purpose purpose }
{
    matches!(purpose, Purpose::Constant | Purpose::Input)
}

/// Offers the faults of a variable that is associated.
#[tactic(auto, unfolding(st_faults::specs::Faults::offer_all), using(st_faults::proofs::Least::offer_append))]
fn check_associated(name: &Identifier, symbol: Option<Symbol<'_>>, first: &mut FirstFault)
    ensures { first.new ≡ offer_all first.old (associated_faults name.now symbol.entry) }
{
    match symbol {
        // Typing rests on this rule in its case `variable_then`.
        None => first.offer(name.position, Rule::UnknownName),
        Some(symbol) => {
            let fits = symbol.shape.base.is_unknown() || is_boolean_type(symbol.shape.elem());
            // Typing rests on this rule in its case `variable_then`.
            first.offer_when(!fits, name.position, Rule::TypeMismatch);
            let is_fixed = is_fixed_purpose(symbol.purpose);
            // Typing rests on this rule in its case `variable_then`: a constant is no place. No case rests on it for inputs.
            first.offer_when(is_fixed, name.position, Rule::NotAssignable);
        }
    }
}

/// Offers the faults of an association.
#[tactic(auto, unfolding(st_faults::specs::Faults::offer_all), using(st_faults::proofs::Least::offer_append))]
fn check_association(scope: &Scope<'_>, association: &Association, first: &mut FirstFault)
    ensures { first.new ≡ offer_all first.old (association_faults (scope_at scope.now)
        association.now) }
{
    let name = &association.name;
    check_qualifier(name, &association.qualifier, first);
    let spelling = name.spelling.as_slice();
    if !scope.is_action(spelling) {
        check_associated(name, scope.variable(spelling), first);
    }
}

/// Offers the faults of the associations of a step.
#[tactic(auto, unfolding(st_faults::specs::Faults::offer_all))]
pub fn check_associations(scope: &Scope<'_>, associations: &[Association], first: &mut FirstFault)
    ensures { first.new ≡ offer_all first.old (flat_map (association_faults (scope_at scope.now))
        associations.now) }
{
    for association in associations {
        check_association(scope, association, first);
    }
}

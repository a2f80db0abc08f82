//! The labels of CASE (3.3.2.3).
ghost use Rattle.std.specs.Prelude.{◌≡◌};
ghost use Rattle.std.specs.List.{flat_map};
ghost use Rattle.st_faults.specs.Faults.{offer_all};
ghost use Rattle.st_check_statements.specs.Statements.{label_faults};

use st_check_expressions::{check_literal, literal_position};
use st_faults::FirstFault;
use st_tree::tree::Label;
use st_values::Elem;

/// Offers the faults of labels, which have the type of the selector, if that can be known.
#[tactic(auto, unfolding(st_faults::specs::Faults::offer_all), using(st_faults::proofs::Least::offer_append))]
pub fn check_labels(labels: &[Label], elem: Option<Elem>, first: &mut FirstFault)
    ensures { first.new ≡ offer_all first.old (flat_map (label_faults elem) labels.now) }
{
    'labels: for label in labels {
        check_label(label, elem, first);
    }
}

/// Offers the faults of a label of a selector of this type.
#[tactic(auto, unfolding(st_faults::specs::Faults::offer_all), using(st_faults::proofs::Least::offer_append))]
fn check_label(label: &Label, elem: Option<Elem>, first: &mut FirstFault)
    ensures { first.new ≡ offer_all first.old (label_faults elem label.now) }
{
    match label {
        Label::Value(value) => check_literal(value, literal_position(value), elem, first),
        Label::Range(low, high) => {
            check_literal(low.get(), literal_position(low.get()), elem, first);
            check_literal(high.get(), literal_position(high.get()), elem, first);
        }
    }
}

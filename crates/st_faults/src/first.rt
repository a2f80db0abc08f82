//! The first of some faults.
ghost use Rattle.std.specs.Prelude.{◌≡◌, ◌∷◌, []};
ghost use Rattle.st_faults.specs.Faults.{fault, none_from, offer_all, when};

use crate::fault::{Fault, Rule};
use st_tree::tree::Position;
use std::marker::Model;

/// The first of the faults that were offered, among those at tokens from one on.
#[derive(Clone, Copy, Debug, PartialEq, Eq)]
pub struct FirstFault {
    /// The number of the token from which on a fault counts.
    start: u64,
    fault: Option<Fault>,
}

impl Model for FirstFault {
    ghost use Rattle.st_faults.specs.Faults.{First};
    ghost use Rattle.std.proofs.Common.{refl};

    ghost Value = { First };

    ghost view = { λ first. record { start = first.start; kept = first.fault } };

    ghost inverse = { λ first. record { start = first.start; fault = first.kept } };

    ghost inverse_ok = { λ first ok. refl };
}

impl FirstFault {
    /// Nothing was offered yet, and faults at all tokens count.
    pub fn new() -> FirstFault
        ensures { result ≡ none_from 0 }
    {
        FirstFault::from(0)
    }

    /// Nothing was offered yet, and faults count at tokens from the one of this number on.
    pub fn from(start: u64) -> FirstFault
        ensures { result ≡ none_from start }
    {
        FirstFault { start, fault: None }
    }

    /// The first of the faults that were offered, among those that count.
    pub fn get(self) -> Option<Fault>
        ensures { result ≡ self.kept }
    {
        self.fault
    }

    /// Offers a fault.
    #[tactic(auto, unfolding(crate::specs::Faults::offer_all, crate::specs::Faults::with_fault))]
    pub fn offer(&mut self, position: Position, rule: Rule)
        ensures { self.new ≡ offer_all self.old (fault position rule ∷ []) }
    {
        if u64::from(position.number) < self.start {
            return;
        }
        let fault = Fault { position, rule };
        match self.fault {
            None => self.fault = Some(fault),
            Some(other) => {
                if fault.is_before(other) {
                    self.fault = Some(fault);
                }
            }
        }
    }

    /// Offers a fault where the rule is broken.
    #[tactic(auto, unfolding(crate::specs::Faults::offer_all))]
    pub fn offer_when(&mut self, is_broken: bool, position: Position, rule: Rule)
        ensures { self.new ≡ offer_all self.old (when is_broken (fault position rule)) }
    {
        if is_broken {
            self.offer(position, rule);
        }
    }
}

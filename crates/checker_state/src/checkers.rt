//! The fifty checkers of one endpoint, each with its own view, and how many of them see a pass.

ghost use Rattle.std.specs.Prelude.{◌≡◌, ◌≢◌, ◌≤◌, ◌<◌, ◌+◌, ◌↔◌, ◌∷◌, ℕ, Bool, List, IsTrue, cond};
ghost use Rattle.checker_state.specs.View.{view_of};
ghost use Rattle.checker_state.specs.Standing.{StandsFor, nothing, with_result, passing_of};

use crate::checker::Checker;
use std::marker::Model;

/// How many checkers look at an endpoint.
pub const CHECKERS: u8 = 50;

/// What the fifty checkers of one endpoint see.
#[derive(Clone, Copy, Debug, PartialEq, Eq)]
pub struct Checkers {
    threshold: u8,
    checkers: [Checker; 50],
    /// How many of them see a pass.
    passing: u8,
}

impl Model for Checkers {
    ghost use Rattle.std.specs.Prelude.{◌≡◌, ◌≤◌, ℕ, count_by, length};
    ghost use Rattle.std.proofs.Common.{ap, sym};
    ghost use Rattle.checker_state.specs.Standing.{Seen};

    ghost Value = { Seen };

    ghost view = { λ a. record { threshold = a.threshold; checkers = a.checkers } };

    ghost invariant = { λ a. (1 ≤ a.threshold) × (length a.checkers ≡ 50)
        × (a.passing ≡ count_by (λ c. c.view) a.checkers) };

    ghost inverse = { λ s. record {
      threshold = s.threshold;
      checkers = s.checkers;
      passing = count_by (λ c. c.view) s.checkers;
    } };

    ghost inverse_ok = { λ a h. ap (λ (n : ℕ). record {
      threshold = a.threshold;
      checkers = a.checkers;
      passing = n;
    }) (sym h.2) };
}

impl Checkers {
    /// Fifty checkers without a result, whose views turn after `threshold` equal ones in a row.
    /// Each sees a pass.
    pub fn new(threshold: u8) -> Checkers
        requires low { 1 ≤ threshold }
        requires high { threshold ≤ 10 }
        ensures { StandsFor threshold nothing result }
    {
        let new = Checker {
            view: true,
            last: true,
            run: 0,
        };
        Checkers {
            threshold,
            checkers: [new; 50],
            passing: CHECKERS,
        }
    }

    /// Takes a checker's result. The answer is whether that checker's view changed.
    pub fn report(&mut self, checker: u8, pass: bool) -> bool
        requires { checker < CHECKERS }
        ensures stands { (n : ℕ) (results : ℕ → List Bool) → StandsFor n results self.old
            → StandsFor n (with_result checker pass results) self.new }
        ensures changed { (n : ℕ) (results : ℕ → List Bool) → StandsFor n results self.old
            → IsTrue result ↔ (view_of n (pass ∷ results checker) ≢ view_of n (results checker)) }
    {
        let at = usize::from(checker);
        let before = self.checkers[at];
        let after = before.after(self.threshold, pass);
        self.checkers[at] = after;
        self.passing = passing_after(self.passing, before.view, after.view);
        after.view != before.view
    }

    /// What a checker sees: whether the endpoint passes.
    pub fn view(&self, checker: u8) -> bool
        requires { checker < CHECKERS }
        ensures { (n : ℕ) (results : ℕ → List Bool) → StandsFor n results self.now
            → result ≡ view_of n (results checker) }
    {
        self.checkers[usize::from(checker)].view
    }

    /// How many checkers see a pass.
    pub fn passing(&self) -> u8
        ensures most { result ≤ CHECKERS }
        ensures exact { (n : ℕ) (results : ℕ → List Bool) → StandsFor n results self.now
            → result ≡ passing_of n results }
    {
        self.passing
    }
}

/// How many see a pass after one view, that before was another or the same.
fn passing_after(passing: u8, before: bool, after: bool) -> u8
    requires counted { cond before 1 0 ≤ passing }
    requires few { passing ≤ CHECKERS }
    ensures { result + cond before 1 0 ≡ passing + cond after 1 0 }
{
    passing + u8::from(after) - u8::from(before)
}

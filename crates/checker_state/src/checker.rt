//! One checker: its view, and how long its last result has come in a row.

ghost use Rattle.std.specs.Prelude.{◌≡◌, ◌≤◌, ◌∷◌, List, Bool};
ghost use Rattle.checker_state.specs.Standing.{kept};

/// What is kept of one checker's results.
#[derive(Clone, Copy, Debug, PartialEq, Eq)]
pub struct Checker {
    pub view: bool,
    /// The last result, and pass before the first.
    pub last: bool,
    /// How often the last result came in a row, up to the threshold.
    pub run: u8,
}

impl Checker {
    /// What is kept after one more result.
    pub fn after(self, threshold: u8, pass: bool) -> Checker
        requires { 1 ≤ threshold }
        ensures { (results : List Bool) → self ≡ kept threshold results
            → result ≡ kept threshold (pass ∷ results) }
    {
        let run = if pass == self.last {
            self.run.saturating_add(1).min(threshold)
        } else {
            1
        };
        let view = if run == threshold { pass } else { self.view };
        Checker {
            view,
            last: pass,
            run,
        }
    }
}

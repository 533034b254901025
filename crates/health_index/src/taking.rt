//! How a report is taken by the checkers of its check.

ghost use Rattle.std.specs.Prelude.{◌<◌, length};
ghost use Rattle.health_index.specs.Taking.{IsTaken, Takes};

use checker_state::{CHECKERS, Checkers};

/// Takes a checker's result at a place, where there are checkers. The answer is how many of them see
/// a pass then.
pub fn take_result(
    seen: &mut [Option<Checkers>],
    place: usize,
    checker: u8,
    pass: bool,
) -> Option<u8>
    requires place { place < length seen.old }
    requires checker { checker < CHECKERS }
    ensures { IsTaken checker pass seen.old place result seen.new }
{
    match &mut seen[place] {
        Some(checkers) => Some(take_here(checkers, checker, pass)),
        None => None,
    }
}

/// Takes a checker's result. The answer is how many checkers see a pass then.
fn take_here(checkers: &mut Checkers, checker: u8, pass: bool) -> u8
    requires { checker < CHECKERS }
    ensures { Takes checker pass checkers.old result checkers.new }
{
    checkers.report(checker, pass);
    checkers.passing()
}

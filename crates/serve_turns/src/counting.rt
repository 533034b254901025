//! How many turns came to what.

ghost use Rattle.std.specs.Prelude.{◌≡◌, if◌then◌else◌};
ghost use Rattle.serve_turns.specs.Turning.{AreWithin};
ghost use Rattle.session_model.specs.Serving.{answered_too, none, quiet_too, reported_too};
ghost use Rattle.session_model.specs.Serving.{silent_too, unknown_too};

use session_model::Turns;

/// No turn yet.
pub(crate) fn no_turns() -> Turns
    ensures { result ≡ none }
{
    Turns {
        turns: 0,
        answered: 0,
        silent: 0,
        reports: 0,
        unknown: 0,
        quiet: 0,
    }
}

/// One more whose packet was answered, or wasn't.
pub(crate) fn count_packet(turns: &mut Turns, answered: bool)
    requires { AreWithin 4294967294 turns.old }
    ensures { turns.new ≡ if answered then answered_too turns.old else silent_too turns.old }
{
    turns.turns += 1;
    if answered {
        turns.answered += 1;
    } else {
        turns.silent += 1;
    }
}

/// One more whose report was taken, or wasn't.
pub(crate) fn count_report(turns: &mut Turns, taken: bool)
    requires { AreWithin 4294967294 turns.old }
    ensures { turns.new ≡ if taken then reported_too turns.old else unknown_too turns.old }
{
    turns.turns += 1;
    if taken {
        turns.reports += 1;
    } else {
        turns.unknown += 1;
    }
}

/// One more without an arrival.
pub(crate) fn count_quiet(turns: &mut Turns)
    requires { AreWithin 4294967294 turns.old }
    ensures { turns.new ≡ quiet_too turns.old }
{
    turns.turns += 1;
    turns.quiet += 1;
}

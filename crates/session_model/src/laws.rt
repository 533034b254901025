//! Laws over the definitions, each the contract of a function that does nothing.

ghost use Rattle.session_model.specs.Laws.{OneAsked, OneSession, OneStep};

/// Octets ask for one thing, or have one first fault.
pub fn one_asked()
    ensures { OneAsked }
{}

/// A line makes one thing of where a session stands.
pub fn one_step()
    ensures { OneStep }
{
    answer_model::one_reply();
    engine_model::one_command_step();
    engine_model::one_compaction_step();
    engine_model::one_report_step();
    one_asked();
}

/// A session is determined by where it stands, its lines and its choices, and by what it is over.
pub fn one_session()
    ensures { OneSession }
{
    one_step();
}

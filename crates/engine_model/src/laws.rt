//! Laws over the definitions, each the contract of a function that does nothing.

ghost use Rattle.engine_model.specs.Laws.{OneCommandStep, OneCompactionStep, OneReportStep};

/// A command has one outcome, and leaves one store.
pub fn one_command_step()
    ensures { OneCommandStep }
{
    config_model::one_outcome();
}

/// So has a report.
pub fn one_report_step()
    ensures { OneReportStep }
{}

/// So have the pieces of a compaction.
pub fn one_compaction_step()
    ensures { OneCompactionStep }
{}

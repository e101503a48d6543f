//! Laws of the definitions, each the contract of a call that does nothing.
ghost use Rattle.rv_laws.specs.SingleWriter.{SingleWriterHasNoStop, AllSingleWriterHaveNoStop, AllSingleWriterGiveNoSix, CpuSlotsHaveOneWriter, AllByCpuHaveOneWriter};
ghost use Rattle.rv_laws.specs.Changes.{UnclearedHasNoStop, AllUnclearedHaveNoStop, AllUnclearedGiveNoSix, IdleScriptIsNone};
ghost use Rattle.rv_laws.specs.Exits.{StatusIsSeen};
ghost use Rattle.rv_laws.specs.CpuParts.{CpuWorkIsPart, CpuWorksAreParts};
ghost use Rattle.rv_laws.specs.Parts.{PartHasItsRecords};
ghost use Rattle.rv_laws.specs.Joins.{PartsHaveAllRecords, AllAreKept, MergedByLineIsWhole, PartSaysItsOwn, ReportIsJoined, StatusIsJoined};
ghost use Rattle.rv_laws.specs.Enabled.{EnabledIsEnough};
ghost use Rattle.rv_laws.specs.Verdicts.{SingleWriterRecordsAgree, AllRecordsAgree, SingleWriterRecordsAreOne, AllRecordsAreOne};

/// Without changes, nobody stops a slot that only one CPU has deliveries for.
pub fn single_writer_slots_are_not_stopped()
    ensures slot { SingleWriterHasNoStop }
    ensures all { AllSingleWriterHaveNoStop }
    ensures status { AllSingleWriterGiveNoSix }
{}

/// Beside a control script, nobody stops such a slot of a monitor that the script never clears.
pub fn uncleared_slots_are_not_stopped()
    ensures slot { UnclearedHasNoStop }
    ensures all { AllUnclearedHaveNoStop }
    ensures status { AllUnclearedGiveNoSix }
{}

/// A control script that asks for no change is none.
pub fn idle_scripts_are_none()
    ensures { IdleScriptIsNone }
{}

/// Only one CPU has deliveries for a slot of a monitor whose instances are the CPUs.
pub fn cpu_slots_have_one_writer()
    ensures slot { CpuSlotsHaveOneWriter }
    ensures all { AllByCpuHaveOneWriter }
{}

/// Without changes and panics, what CPUs do at once is not seen in the records of such a slot.
pub fn single_writer_records_agree()
    ensures slot { SingleWriterRecordsAgree }
    ensures all { AllRecordsAgree }
{}

/// So the records of such a slot are those of one thread.
pub fn single_writer_records_are_one()
    ensures slot { SingleWriterRecordsAreOne }
    ensures all { AllRecordsAreOne }
{}

/// Without changes and panics, a history of the deliveries that the opening switches show on is a history of all.
pub fn enabled_deliveries_are_enough()
    ensures { EnabledIsEnough }
{}

/// The status can be seen in the history, without the works and their records.
pub fn status_is_seen()
    ensures { StatusIsSeen }
{}

/// A part of an input has the whole's records of the instances that it keeps; so parts that keep each instance once have
/// all records together.
pub fn parts_have_the_whole()
    ensures part { PartHasItsRecords }
    ensures all { PartsHaveAllRecords }
    ensures kept { AllAreKept }
    ensures by_line { MergedByLineIsWhole }
{}

/// Where all monitors are by CPU, the work of each CPU is a part, and those of all CPUs are the whole's parts.
pub fn cpu_works_are_parts()
    ensures part { CpuWorkIsPart }
    ensures all { CpuWorksAreParts }
{}

/// So the whole's report and its status are made of what its parts say and count.
pub fn parts_report_the_whole()
    ensures said { PartSaysItsOwn }
    ensures text { ReportIsJoined }
    ensures status { StatusIsJoined }
{}

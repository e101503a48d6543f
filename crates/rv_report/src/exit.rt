//! The exit status of a run.
ghost use Rattle.std.specs.Prelude.{◌≡◌, ◌++◌, ◌∷◌, [], List};
ghost use Rattle.rv_model.specs.declared.record.Record.{Record};
ghost use Rattle.rv_model.specs.Records.{status_of};
ghost use Rattle.rv_report.specs.Exit.{IsStatus};

use rv_model::{Answer, Delivered, Record};
use rv_text::{CLEAN, FAILURE, STOPPED_SOME};

/// The status of records and one more, from that of the records.
pub(crate) fn status_with(status: u8, made: &Record) -> u8
    ensures { (rs : List Record) → status ≡ status_of rs → result ≡ status_of (rs ++ made.now ∷ []) }
{
    match made.outcome {
        Delivered::Done(Answer::Failed(_)) => FAILURE,
        Delivered::Racing if status == CLEAN => STOPPED_SOME,
        _ => status,
    }
}

/// The status of records and others, from that of each.
pub(crate) fn both_statuses(status: u8, other: u8) -> u8
    ensures { (rs : List Record) (others : List Record) → status ≡ status_of rs → other ≡ status_of others → result ≡ status_of (rs ++ others) }
{
    if status == FAILURE || other == CLEAN {
        status
    } else {
        other
    }
}

/// The status of records.
pub fn status(records: &[Record]) -> u8
    ensures { IsStatus records.now result }
{
    let mut status = CLEAN;
    for record in records {
        status = status_with(status, record);
    }
    status
}

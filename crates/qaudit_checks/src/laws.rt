//! The law of a state's own rows.
ghost use Rattle.qaudit_checks.specs.OwnRows.{OwnRowsAgree};

/// A recount of a lawful state's own rows agrees with its own records and link counts. It does nothing when it runs.
pub fn own_rows_agree()
    ensures { OwnRowsAgree }
{}

ghost use Rattle.rulebook_cli.specs.Laws.{FilesAreKept, NothingIsDueWithoutAFile, OneOutcomeIsDue};
ghost use Rattle.rulebook_cli.specs.Laws.{OneStatusIsDue, PlansAreAccepted};

/// Words over files are due one status, and a refusal one text.
pub fn one_status_is_due()
    ensures { OneStatusIsDue }
{}

/// Words that save nothing are due one outcome: the status, the text and the files of any two due
/// outcomes are the same.
pub fn one_outcome_is_due()
    ensures { OneOutcomeIsDue }
{}

/// A call changes no file but the one that its words name to be saved, and that only where its work
/// is done.
pub fn files_are_kept()
    ensures { FilesAreKept }
{}

/// A file that a call comes to load is one that its outcome needs.
pub fn nothing_is_due_without_a_file()
    ensures { NothingIsDueWithoutAFile }
{}

/// `check` accepts the certificate that `plan` saves, and prints what `plan` printed.
pub fn plans_are_accepted()
    ensures { PlansAreAccepted }
{}

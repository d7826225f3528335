//! Laws of commands.
ghost use Rattle.tis_cli.specs.Commands.{AnswersAreOne, ReportsAnswer};

/// The texts of a command come to one answer.
pub fn answers_are_one()
    ensures { AnswersAreOne }
{}

/// Each command that puts a report comes to an answer over any texts that it fetched.
pub fn reports_answer()
    ensures { ReportsAnswer }
{}

//! Laws of the definitions: each is the contract of a function with an empty body.
ghost use Rattle.sudo_text.specs.Runs.{QuotesClose, QuotesEndRuns, QuotesEndWords, RunsAreWhole, PlainRuns};
ghost use Rattle.sudo_text.specs.Runs.{RunsBegin, BlanksOfArguments, ArgumentsOfCommands};
ghost use Rattle.sudo_text.specs.Tokens.{SpelledOnce, FaultsExclude, FaultedOnce, FaultsPlaced};

/// No line spells two lists of tokens.
pub fn one_token_list()
    ensures { SpelledOnce }
{}

/// A line that spells a list of tokens has no fault.
pub fn no_fault_beside_tokens()
    ensures { FaultsExclude }
{}

/// No line has two leftmost faults.
pub fn one_leftmost_fault()
    ensures { FaultedOnce }
{}

/// A leftmost fault names the place where its line begins.
pub fn faults_name_their_line()
    ensures { FaultsPlaced }
{}

/// The text after an opening double quote closes it exactly if it contains a double quote with an even number of
/// backslashes directly before it.
pub fn quotes_close()
    ensures { QuotesClose }
{}

/// A run between double quotes ends at the first double quote with an even number of backslashes directly before it.
pub fn quotes_end_runs()
    ensures { QuotesEndRuns }
{}

/// A quoted word ends directly after that double quote.
pub fn quotes_end_words()
    ensures { QuotesEndWords }
{}

/// A word, a value, a path or a quoted text extends to the first byte that ends it and has an even number of
/// backslashes directly before it, or to the end of the text. Arguments leave out the blanks before that.
pub fn runs_are_whole()
    ensures { RunsAreWhole }
{}

/// The characters of a word, a value, a path or a quoted text without backslashes are its bytes.
pub fn plain_runs()
    ensures { PlainRuns }
{}

/// A word, a value or a path never begins with a byte that would end it further on, apart from the `#` of a number.
pub fn what_begins_a_run()
    ensures { RunsBegin }
{}

/// Blanks among arguments are one space, followed by a character that is not a blank.
pub fn blanks_of_arguments()
    ensures { BlanksOfArguments }
{}

/// The arguments of a command have a first character, which is not a blank.
pub fn arguments_of_commands()
    ensures { ArgumentsOfCommands }
{}

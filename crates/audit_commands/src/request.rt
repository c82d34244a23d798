//! The commands that the command line can ask for.

use sudo_grammar::Kind;

/// A command that the command line asks for, with its texts as given.
#[derive(Debug, Drop)]
pub enum Asked<'a> {
    /// `check FILE`: lists the findings on a policy.
    Check {
        file: &'a str,
    },
    /// `expand FILE KIND NAME`: writes an alias out.
    Expand {
        file: &'a str,
        kind: Kind,
        name: &'a str,
    },
    /// `audit FILE --users F --hosts F [--workers N] [NAME=PATH]...`: answers requests.
    Audit {
        file: &'a str,
        users: &'a str,
        hosts: &'a str,
        workers: u32,
        /// The words `NAME=PATH`, as given.
        senders: Vec<&'a str>,
    },
}

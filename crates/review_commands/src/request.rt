//! The commands that the command line can ask for.

use review_cautions::CautionClass;
use sudo_grammar::Kind;

/// The main file of a policy, and, if they are given, the folder below which all files of the policy are, the files of its netgroups and
/// of the addresses of hosts, and the name of the host that it is read for.
#[derive(Clone, Copy, Debug)]
pub struct PolicyPath<'a> {
    pub file: &'a str,
    pub root: Option<&'a str>,
    pub netgroups: Option<&'a str>,
    pub addresses: Option<&'a str>,
    pub hostname: Option<&'a str>,
}

/// The paths of a policy, of the known users and of the known hosts.
#[derive(Clone, Copy, Debug)]
pub struct Paths<'a> {
    pub policy: PolicyPath<'a>,
    pub users: &'a str,
    pub hosts: &'a str,
}

/// The paths of two policies, of the known users and of the known hosts, and, if they are given, those of the netgroups and of the
/// addresses of hosts, and the name of the host that both are read for.
#[derive(Clone, Copy, Debug)]
pub struct PairPaths<'a> {
    pub old: &'a str,
    pub new: &'a str,
    pub users: &'a str,
    pub hosts: &'a str,
    pub netgroups: Option<&'a str>,
    pub addresses: Option<&'a str>,
    pub hostname: Option<&'a str>,
}

/// A command that the command line asks for, with its texts as given.
#[derive(Debug, Drop)]
pub enum Asked<'a> {
    /// `check FILE [--root DIR] [--netgroups F] [--addresses F] [--hostname NAME]`: lists the findings on the aliases of a policy.
    Check {
        policy: PolicyPath<'a>,
    },
    /// `expand FILE KIND NAME [--root DIR] [--netgroups F] [--addresses F] [--hostname NAME]`: writes an alias of a policy out.
    Expand {
        policy: PolicyPath<'a>,
        kind: Kind,
        name: &'a str,
    },
    /// `cautions FILE [--root DIR] [--netgroups F] [--addresses F] [--hostname NAME] [--links F] [--without CLASS]...`: lists what sudo
    /// reads or judges otherwise on a machine that has the links of a file, or the usual ones, but for some classes.
    Cautions {
        policy: PolicyPath<'a>,
        links: Option<&'a str>,
        without: Vec<CautionClass>,
    },
    /// `grants FILE [--root DIR] [--netgroups F] [--addresses F] [--hostname NAME] --users F --hosts F [--user NAME] [--host NAME]`: lists
    /// the grants of a policy, with the known users and hosts of each.
    Grants {
        paths: Paths<'a>,
        user: Option<&'a str>,
        host: Option<&'a str>,
    },
    /// `roots FILE [--root DIR] [--netgroups F] [--addresses F] [--hostname NAME] --users F --hosts F [--all]`: lists who can become root,
    /// also by listed commands alone if `all`.
    Roots {
        paths: Paths<'a>,
        all: bool,
    },
    /// `who FILE [--root DIR] [--netgroups F] [--addresses F] [--hostname NAME] --users F --hosts F --command PATH [--arguments TEXT]
    /// [--runas USER]`: lists who may run a command, and on which host.
    Who {
        paths: Paths<'a>,
        command: &'a str,
        arguments: Option<&'a str>,
        runas: Option<&'a str>,
    },
    /// `subjects FILE [--root DIR] [--netgroups F] [--addresses F] [--hostname NAME] --users F --hosts F`: lists what of a policy reaches
    /// nobody.
    Subjects {
        paths: Paths<'a>,
    },
    /// `rules FILE [--root DIR] [--netgroups F] [--addresses F] [--hostname NAME] --users F --hosts F [--workers N] [NAME=PATH]...`: counts
    /// the requests that each rule decides.
    Rules {
        paths: Paths<'a>,
        workers: u32,
        /// The words `NAME=PATH`, as given.
        senders: Vec<&'a str>,
    },
    /// `report FILE [--root DIR] [--netgroups F] [--addresses F] [--hostname NAME] --users F --hosts F [--workers N] [NAME=PATH]...`:
    /// answers requests, each beside its answer.
    Report {
        paths: Paths<'a>,
        workers: u32,
        /// The words `NAME=PATH`, as given.
        senders: Vec<&'a str>,
    },
    /// `compare OLD NEW [--netgroups F] [--addresses F] [--hostname NAME] --users F --hosts F [--user NAME] [--host NAME]`: lists what a
    /// change of a policy does, for every command.
    Compare {
        paths: PairPaths<'a>,
        user: Option<&'a str>,
        host: Option<&'a str>,
    },
    /// `compare OLD NEW [--netgroups F] [--addresses F] [--hostname NAME] --users F --hosts F --requests NAME=PATH...`: lists the requests
    /// that a change of a policy answers otherwise.
    Changes {
        paths: PairPaths<'a>,
        /// The words `NAME=PATH`, as given: at least one.
        senders: Vec<&'a str>,
    },
}

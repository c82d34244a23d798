//! The tree of a policy: its lines in order, each as written.
ghost use Rattle.std.specs.Prelude.{IsTrue, nat_lt, length, not};
ghost use Rattle.std.specs.List.{list_all};
ghost use Rattle.sudo_grammar.specs.Body.Includes.{is_include_entry};

use crate::{Kind, Member, Tag};
use sudo_text::{Ch, Place, Seq, Token};

/// A policy of sudoers(5): the entries of its files, in the order in which they are read.
///
/// Includes are resolved: the entries of an included file are in the place of the include line, and no include line is
/// left.
#[derive(Debug, Drop, PartialEq, Eq)]
pub struct Policy {
    /// The paths of the files that were read, by file number, the main file first.
    pub files: Seq<Seq<u8>>,
    /// The entries, in order.
    pub entries: Seq<Entry>,
    /// Each entry belongs to one of the files.
    pub ghost placed: { IsTrue (list_all (λ e. nat_lt e.place.file (length files)) entries) },
    /// No include line is left.
    pub ghost unfolded: { IsTrue (list_all (λ e. not (is_include_entry e.body)) entries) },
}

/// The content of one logical line.
#[derive(Clone, Debug, Drop, PartialEq, Eq)]
pub struct Entry {
    /// The place where the line begins.
    pub place: Place,
    pub body: EntryBody,
}

/// The kinds of entries.
#[derive(Clone, Debug, Drop, PartialEq, Eq)]
pub enum EntryBody {
    /// Definitions of aliases of one kind.
    Aliases {
        kind: Kind,
        definitions: Seq<Definition>,
    },
    /// A `Defaults` line: the list to which it is bound, if any, and its parameters.
    Defaults {
        binding: Option<Binding>,
        parameters: Seq<Parameter>,
    },
    /// A user specification: who may run which commands on which hosts.
    Rule {
        users: Seq<Member>,
        sections: Seq<Section>,
    },
    /// An include directive: whether it names a folder, whether it begins with `#` in place of `@`, and its path.
    Include {
        folder: bool,
        hash: bool,
        path: Seq<Ch>,
    },
}

/// The definition of an alias: its name and its list.
#[derive(Clone, Debug, Drop, PartialEq, Eq)]
pub struct Definition {
    pub name: Seq<u8>,
    pub members: Seq<Member>,
}

/// A list of hosts, and the commands granted on them.
#[derive(Clone, Debug, Drop, PartialEq, Eq)]
pub struct Section {
    pub hosts: Seq<Member>,
    pub commands: Seq<CommandSpec>,
}

/// A command of a section, with its runas and its tags.
#[derive(Clone, Debug, Drop, PartialEq, Eq)]
pub struct CommandSpec {
    pub runas: Option<Runas>,
    pub tags: Seq<Tag>,
    pub command: Member,
}

/// The users and groups that a command may be run as: `(users:groups)`, where either list may be absent. `(users:)` is
/// `(users)`, and `(:)` is `()`.
#[derive(Clone, Debug, Drop, PartialEq, Eq)]
pub struct Runas {
    pub users: Option<Seq<Member>>,
    pub groups: Option<Seq<Member>>,
}

/// The list to which a `Defaults` line is bound: `@hosts`, `:users`, `!commands` or `>runas`.
#[derive(Clone, Debug, Drop, PartialEq, Eq)]
pub enum Binding {
    Hosts(Seq<Member>),
    Users(Seq<Member>),
    Commands(Seq<Member>),
    Runas(Seq<Member>),
}

/// A parameter of a `Defaults` line. Its name is not checked.
#[derive(Clone, Debug, Drop, PartialEq, Eq)]
pub enum Parameter {
    /// A parameter that is switched on, or off by an odd number of `!`.
    Switch {
        bangs: u32,
        name: Token,
    },
    /// A parameter with a value, which is set, added to a list or removed from it.
    Assign {
        name: Token,
        operator: Operator,
        value: Token,
    },
}

/// The operator of an assignment to a parameter.
#[derive(Clone, Copy, Debug, PartialEq, Eq)]
pub enum Operator {
    /// `=`
    Set,
    /// `+=`
    Add,
    /// `-=`
    Remove,
}

//! The numbers of a request's user and command: the rows in which its rules are found, and a set for its command's keys.

ghost use Rattle.std.specs.Prelude.{ℕ, ◌≡◌, ◌<◌, length};
ghost use Rattle.sudo_verdict.specs.Numbers.{user_number};
ghost use Rattle.sudo_verdict.specs.Body.Blocks.{HasNumbers, IsNoted, ListsUser};

use crate::index::number_set::NumberSet;
use crate::index::numbers::{
    BEGINNING, EVERYONE, gid_number, group_number, next_number, uid_number, whole_number,
};
use crate::index::row_list::RowList;
use crate::index::rows::Rows;
use sudo_match::Person;

/// The numbers of a user and of a command: the rows of both, and the command's numbers as a set.
#[derive(Clone, Copy)]
pub(crate) struct RequestNumbers {
    /// The rows of the user.
    pub(crate) users: RowList,
    /// The rows of the command.
    pub(crate) commands: RowList,
    /// The numbers of the command.
    pub(crate) set: NumberSet,
}

impl RequestNumbers {
    /// Creates an empty value.
    pub(crate) fn new() -> RequestNumbers {
        RequestNumbers {
            users: RowList::new(),
            commands: RowList::new(),
            set: NumberSet::new(),
        }
    }

    /// Adds the rows of a user, whose name has this number.
    pub(crate) fn add_user(&mut self, rows: &Rows, user: &Person, number: usize)
        requires rows { 0 < length rows.now.rows.items }
        requires number { number ≡ user_number user.now.name }
        ensures { ListsUser rows.now.rows.items self.new.users user.now }
    {
        self.users.add(rows, EVERYONE);
        self.users.add(rows, number);
        self.users.add(rows, uid_number(user.uid));
        let mut left = user.groups.as_slice();
        while let Some((group, rest)) = left.split_first() {
            self.users.add(rows, group_number(group.name.as_slice()));
            self.users.add(rows, gid_number(group.gid));
            left = rest;
        }
    }

    // Adds a number of the command.
    fn add_number(&mut self, rows: &Rows, number: usize)
        requires rows { 0 < length rows.now.rows.items }
        requires number { number < 16384 }
        ensures adds { IsNoted rows.now.rows.items self.new number }
        ensures keeps { (other : ℕ) → IsNoted rows.now.rows.items self.old other
            → IsNoted rows.now.rows.items self.new other }
        ensures users { self.new.users ≡ self.old.users }
    {
        self.set.add(number);
        self.commands.add(rows, number);
    }

    /// Adds the numbers of a command: those of all its beginnings, and of it as a whole.
    pub(crate) fn add_command(&mut self, rows: &Rows, command: &[u8])
        requires { 0 < length rows.now.rows.items }
        ensures numbers { HasNumbers rows.now.rows.items self.new command.now }
        ensures users { self.new.users ≡ self.old.users }
    {
        self.add_number(rows, EVERYONE);
        self.add_number(rows, BEGINNING);
        let mut number = BEGINNING;
        let mut left = command;
        while let Some((byte, rest)) = left.split_first() {
            number = next_number(number, *byte);
            self.add_number(rows, number);
            left = rest;
        }
        self.add_number(rows, whole_number(number));
    }
}

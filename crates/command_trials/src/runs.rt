//! Runs of the commands over memory, each shown as a line: the exit status, the text on the output
//! and, after `!`, the text on the error output, with `;` for the end of each line.
//!
//! Each line of a table of runs has a word, the first and the last number of the runs, ` =>`, and
//! the text that each of them shows.

use audit_commands::{Work, audit_into, check_run};
use audit_files::Script;
use audit_run::Source;
use review_cautions::usual_links;
use review_commands::{
    Form, ScopeNames, cautions_run, grants_run, report_into, roots_run, subjects_run,
};
use run_base::{Files, FilesFault};
use std::alloc::{AllocError, Global};
use std::sync::Wait;
use std::test::Fail;
use std::thread::Threads;
use sudo_text::Seq;

/// The bytes of a users file.
pub(crate) const USERS: &[u8] =
    b"user,uid,groups\nroot,0,root:0\nalice,1000,alice:1000 adm:4\nbob,1001,bob:1001 operator:37\noperator,11,operator:37\n";

/// The bytes of a hosts file.
pub(crate) const HOSTS: &[u8] =
    b"host,interfaces\nweb1.example.org,10.1.2.3/16 127.0.0.1/8\nweb2.example.org,10.2.0.9/16\n";

/// The bytes of a requests file.
pub(crate) const REQUESTS: &[u8] = b"number,user,host,runas_user,runas_group,command,arguments\n\
1,alice,web1.example.org,,,/bin/kill,-9 7\n\
2,carol,web1.example.org,,,/bin/kill,\n\
close,2,,,,,\n";

/// The policy `p`.
pub(crate) const FILES: [Item<'static>; 1] = [Item {
    path: b"p",
    text: b"alice web1 = NOPASSWD: /bin/kill, /usr/bin/lprm, PASSWD: /bin/ls : web2 = /bin/kill\n",
}];

/// A file: its path and its text.
#[derive(Clone, Copy)]
pub(crate) struct Item<'a> {
    pub(crate) path: &'a [u8],
    pub(crate) text: &'a [u8],
}

/// Files over memory. Any other file is missing, and any folder is empty.
#[derive(Clone, Copy)]
pub(crate) struct Shelf<'a> {
    pub(crate) items: &'a [Item<'a>],
}

impl Files for Shelf<'_> {
    ghost use Rattle.run_base.specs.Holding.{any_holdings};

    ghost held = { λ _. any_holdings };

    fn file(&mut self, alloc: Global, path: &[u8]) -> Result<Option<Seq<u8>>, FilesFault> {
        for item in self.items {
            if item.path == path {
                return Ok(Some(Seq::from_slice(alloc, item.text)?));
            }
        }
        Ok(None)
    }

    fn folder(&mut self, alloc: Global, _path: &[u8]) -> Result<Seq<Seq<u8>>, FilesFault> {
        Ok(Seq::new(alloc))
    }
}

/// Readers of the users, the hosts and the requests of `s`.
#[derive(Drop)]
pub(crate) struct Readers {
    pub(crate) users: Script,
    pub(crate) hosts: Script,
    pub(crate) requests: Script,
}

/// Returns a line with an exit status and the printed texts.
pub(crate) fn shown(
    alloc: Global,
    status: u8,
    out: &Script,
    err: &Script,
) -> Result<String, AllocError> {
    let mut line = format!(in alloc; "{status} ")?;
    push_folded(&mut line, out.taken())?;
    if !err.taken().is_empty() {
        line.push_str("! ")?;
        push_folded(&mut line, err.taken())?;
    }
    Ok(line)
}

// Appends a printed text, with `;` for the end of each line.
fn push_folded(line: &mut String, text: &[u8]) -> Result<(), AllocError> {
    for byte in text {
        line.push(if *byte == b'\n' { ';' } else { *byte as char })?;
    }
    Ok(())
}

/// Shows an audit by two workers of these files and readers, with this writer.
pub(crate) fn audit_shown<T: Threads + Wait + Sync, F: Files>(
    alloc: Global,
    rt: &T,
    files: &mut F,
    readers: Readers,
    mut out: Script,
) -> Result<String, AllocError> {
    let Readers {
        mut users,
        mut hosts,
        requests,
    } = readers;
    let mut sources = Vec::new(alloc);
    sources.push(Source {
        name: Seq::from_slice(alloc, b"s")?,
        reader: requests,
    })?;
    let mut err = Script::of(alloc, b"", 1000)?;
    let status = audit_into(
        alloc, rt, b"p", files, &mut users, &mut hosts, sources, 2, &mut out, &mut err,
    );
    shown(alloc, status, &out, &err)
}

/// Shows a check of the policy `p`, with this writer.
pub(crate) fn check_shown<F: Files>(
    alloc: Global,
    files: &mut F,
    mut out: Script,
) -> Result<String, AllocError> {
    let mut err = Script::of(alloc, b"", 1000)?;
    let status = check_run(alloc, b"p", files, &mut out, &mut err);
    shown(alloc, status, &out, &err)
}

/// Shows a report of this form by two workers of these files and readers, with this writer.
pub(crate) fn report_shown<T: Threads + Wait + Sync, F: Files>(
    alloc: Global,
    rt: &T,
    files: &mut F,
    readers: Readers,
    form: Form,
    mut out: Script,
) -> Result<String, AllocError> {
    let Readers {
        mut users,
        mut hosts,
        requests,
    } = readers;
    let mut sources = Vec::new(alloc);
    sources.push(Source {
        name: Seq::from_slice(alloc, b"s")?,
        reader: requests,
    })?;
    let mut err = Script::of(alloc, b"", 1000)?;
    let work = Work {
        sources,
        workers: 2,
    };
    let status = report_into(
        alloc, rt, b"p", files, &mut users, &mut hosts, work, form, &mut out, &mut err,
    );
    shown(alloc, status, &out, &err)
}

/// The tables of known users and hosts alone, without requests.
pub(crate) const TABLES: [&str; 3] = ["grants", "roots", "subjects"];

/// Shows the one of these tables that the word names, of these files and readers, with this writer.
pub(crate) fn table_shown<F: Files>(
    alloc: Global,
    word: &str,
    files: &mut F,
    readers: Readers,
    mut out: Script,
) -> Result<String, AllocError> {
    let Readers {
        mut users,
        mut hosts,
        requests,
    } = readers;
    drop(requests);
    let mut err = Script::of(alloc, b"", 1000)?;
    let names = ScopeNames {
        user: None,
        host: None,
    };
    let status = match word {
        "grants" => grants_run(
            alloc, b"p", files, &mut users, &mut hosts, names, &mut out, &mut err,
        ),
        "roots" => roots_run(
            alloc, b"p", files, &mut users, &mut hosts, true, &mut out, &mut err,
        ),
        _ => subjects_run(
            alloc, b"p", files, &mut users, &mut hosts, &mut out, &mut err,
        ),
    };
    shown(alloc, status, &out, &err)
}

/// Returns the text of the table that the word names, of the files of these tests, on one line.
pub(crate) fn table_text(word: &str) -> &'static str {
    match word {
        "grants" => {
            "place,users,hosts,runas,sign,command,tags,depends;\
            p:1,alice,web1.example.org,,,/bin/kill,NOPASSWD,;\
            p:1,alice,web1.example.org,,,/usr/bin/lprm,NOPASSWD,;\
            p:1,alice,web1.example.org,,,/bin/ls,PASSWD,;\
            p:1,alice,web2.example.org,,,/bin/kill,,;"
        }
        "roots" => {
            "user,host,target,level,password,place,tags,via,depends;\
            root,web1.example.org,root,root,none,,,,;\
            alice,web1.example.org,root,listed,?,p:1,PASSWD,,;\
            root,web2.example.org,root,root,none,,,,;\
            alice,web2.example.org,root,listed,own,p:1,,,;"
        }
        _ => "place,kind,name,what;",
    }
}

/// Shows the cautions on the policy `p`, with this writer.
pub(crate) fn cautions_shown<F: Files>(
    alloc: Global,
    files: &mut F,
    mut out: Script,
) -> Result<String, AllocError> {
    let mut err = Script::of(alloc, b"", 1000)?;
    let links = usual_links(alloc)?;
    let status = cautions_run(alloc, b"p", files, &links, &[], &mut out, &mut err);
    shown(alloc, status, &out, &err)
}

// Returns the word and the two numbers of a row, and the text that its runs show, or `None` for
// another line.
fn row(line: &str) -> Option<(&str, u64, u64, &str)> {
    let (runs, wanted) = line.split_once(" => ")?;
    let (word, numbers) = runs.split_once(' ')?;
    let (first, last) = numbers.split_once(' ')?;
    Some((word, first.parse().ok()?, last.parse().ok()?, wanted))
}

// Appends each run of a row that shows another text than the expected, with that text, and a line
// that is not a row.
fn check_row<S>(alloc: Global, wrong: &mut String, line: &str, show: &S) -> Result<(), Fail>
where
    S: Fn(&str, u64) -> Result<String, Fail>,
    requires { S.IsAlwaysCallable show.now }
{
    let Some((word, first, last, wanted)) = row(line) else {
        return Ok(wrong.push_str(line)?);
    };
    for number in first..last.saturating_add(1) {
        let found = show(word, number)?;
        if found.as_str() != wanted {
            let text = format!(in alloc; "{word} {number} => {found}\n")?;
            wrong.push_str(text.as_str())?;
        }
    }
    Ok(())
}

/// Returns the runs of a table that show another text than the expected, each with that text.
pub(crate) fn wrong_runs<S>(alloc: Global, table: &str, show: S) -> Result<String, Fail>
where
    S: Fn(&str, u64) -> Result<String, Fail>,
    requires { S.IsAlwaysCallable show }
{
    let mut wrong = String::new(alloc);
    for line in table.lines() {
        check_row(alloc, &mut wrong, line, &show)?;
    }
    Ok(wrong)
}

//! Runs in which each read and each write fails in turn.

use crate::runs::{
    FILES, HOSTS, Item, REQUESTS, Readers, Shelf, TABLES, USERS, audit_shown, cautions_shown,
    check_shown, report_shown, shown, table_shown, table_text, wrong_runs,
};
use audit_commands::expand_run;
use audit_files::{ReadFault, Script, read_whole};
use review_commands::{Form, expand_run as review_expand_run};
use run_base::{Files, FilesFault, Obstacle};
use std::alloc::{AllocError, Global};
use std::sync::Wait;
use std::test::Fail;
use std::thread::Threads;
use sudo_grammar::Kind;
use sudo_text::{Seq, TEXT_LIMIT};

// Returns a reader of these bytes, of which each read returns ten; the read with this number fails,
// if it is above 0.
fn reader(alloc: Global, text: &[u8], call: u64) -> Result<Script, AllocError> {
    let script = Script::of(alloc, text, 10)?;
    Ok(if call == 0 {
        script
    } else {
        script.failing_at(call)
    })
}

// Returns the call if the two words are equal, else 0.
fn call_of(word: &str, other: &str, call: u64) -> u64 {
    if word == other { call } else { 0 }
}

// Files over memory, of which each read returns ten bytes; this read of the file at this path
// fails.
#[derive(Clone, Copy)]
struct Failing<'a> {
    items: &'a [Item<'a>],
    path: &'a [u8],
    call: u64,
}

impl Files for Failing<'_> {
    ghost use Rattle.run_base.specs.Holding.{any_holdings};

    ghost held = { λ _. any_holdings };

    fn file(&mut self, alloc: Global, path: &[u8]) -> Result<Option<Seq<u8>>, FilesFault> {
        let call = if path == self.path { self.call } else { 0 };
        for item in self.items {
            if item.path == path {
                let mut reader = reader(alloc, item.text, call)?;
                return match read_whole(alloc, &mut reader, TEXT_LIMIT) {
                    Ok(text) => Ok(Some(Seq::from_vec(text))),
                    Err(ReadFault::Memory) => Err(FilesFault::Memory),
                    Err(_) => Err(FilesFault::Failed(Obstacle::Other)),
                };
            }
        }
        Ok(None)
    }

    fn folder(&mut self, alloc: Global, _path: &[u8]) -> Result<Seq<Seq<u8>>, FilesFault> {
        Ok(Seq::new(alloc))
    }
}

// Returns readers of which this read of the file that the word names fails.
fn readers(alloc: Global, word: &str, call: u64) -> Result<Readers, AllocError> {
    Ok(Readers {
        users: reader(alloc, USERS, call_of(word, "users", call))?,
        hosts: reader(alloc, HOSTS, call_of(word, "hosts", call))?,
        requests: reader(alloc, REQUESTS, call_of(word, "requests", call))?,
    })
}

// Shows an audit in which this read of the file that the word names fails.
fn audit_failing<T: Threads + Wait + Sync>(
    alloc: Global,
    rt: &T,
    word: &str,
    call: u64,
) -> Result<String, AllocError> {
    let mut files = Failing {
        items: &FILES,
        path: b"p",
        call: call_of(word, "policy", call),
    };
    let out = Script::of(alloc, b"", 1000)?;
    audit_shown(alloc, rt, &mut files, readers(alloc, word, call)?, out)
}

const AUDITS: &str = "users 1 13 => 4 ! sudo_audit: users: read failed;
users 14 14 => 0 sender,number,verdict,line,tags;s,1,allow,p:1,NOPASSWD;s,2,unknown-user,,;
hosts 1 10 => 4 ! sudo_audit: hosts: read failed;
hosts 11 11 => 0 sender,number,verdict,line,tags;s,1,allow,p:1,NOPASSWD;s,2,unknown-user,,;
requests 1 17 => 4 ! sudo_audit: sender s: read failed;
requests 18 18 => 0 sender,number,verdict,line,tags;s,1,allow,p:1,NOPASSWD;s,2,unknown-user,,;
policy 1 10 => 4 ! sudo_audit: cannot read p;
policy 11 11 => 0 sender,number,verdict,line,tags;s,1,allow,p:1,NOPASSWD;s,2,unknown-user,,;";

#[test]
fn each_read_of_an_audit_may_fail(rt: HostRuntime) -> Result<(), Fail> {
    let alloc = rt.alloc();
    let wrong = wrong_runs(alloc, AUDITS, |word, call| {
        Ok(audit_failing(alloc, &rt, word, call)?)
    })?;
    assert_eq!(rt; wrong.as_str(), "");
    Ok(())
}

// Shows a report in which this read of the file that the word names fails.
fn report_failing<T: Threads + Wait + Sync>(
    alloc: Global,
    rt: &T,
    word: &str,
    call: u64,
) -> Result<String, AllocError> {
    let mut files = Failing {
        items: &FILES,
        path: b"p",
        call: call_of(word, "policy", call),
    };
    let out = Script::of(alloc, b"", 1000)?;
    let readers = readers(alloc, word, call)?;
    report_shown(alloc, rt, &mut files, readers, Form::Requests, out)
}

const REPORTS: &str = "users 1 13 => 4 ! sudo_review: users: read failed;
hosts 1 10 => 4 ! sudo_review: hosts: read failed;
requests 1 17 => 4 ! sudo_review: sender s: read failed;
policy 1 10 => 4 ! sudo_review: cannot read p;";

#[test]
fn each_read_of_a_report_may_fail(rt: HostRuntime) -> Result<(), Fail> {
    let alloc = rt.alloc();
    let wrong = wrong_runs(alloc, REPORTS, |word, call| {
        Ok(report_failing(alloc, &rt, word, call)?)
    })?;
    assert_eq!(rt; wrong.as_str(), "");
    Ok(())
}

// Shows a table in which this read of the file that the word names fails.
fn table_failing(alloc: Global, table: &str, word: &str, call: u64) -> Result<String, AllocError> {
    let mut files = Failing {
        items: &FILES,
        path: b"p",
        call: call_of(word, "policy", call),
    };
    let out = Script::of(alloc, b"", 1000)?;
    table_shown(alloc, table, &mut files, readers(alloc, word, call)?, out)
}

const UNREAD_TABLES: &str = "users 1 13 => 4 ! sudo_review: users: read failed;
hosts 1 10 => 4 ! sudo_review: hosts: read failed;
policy 1 10 => 4 ! sudo_review: cannot read p;";

#[test]
fn each_read_of_a_table_may_fail(rt: HostRuntime) -> Result<(), Fail> {
    let alloc = rt.alloc();
    for table in TABLES {
        let wrong = wrong_runs(alloc, UNREAD_TABLES, |word, call| {
            Ok(table_failing(alloc, table, word, call)?)
        })?;
        assert_eq!(rt; wrong.as_str(), "");
    }
    Ok(())
}

// A policy of two files, of 26 and 31 bytes.
const TWO_FILES: [Item<'static>; 2] = [
    Item {
        path: b"p",
        text: b"@include q\nalice ALL = LS\n",
    },
    Item {
        path: b"q",
        text: b"Cmnd_Alias LS = /bin/ls, UNDEF\n",
    },
];

// Shows a check in which this read of the file at this path fails.
fn check_failing(alloc: Global, path: &str, call: u64) -> Result<String, AllocError> {
    let mut files = Failing {
        items: &TWO_FILES,
        path: path.as_bytes(),
        call,
    };
    check_shown(alloc, &mut files, Script::of(alloc, b"", 1000)?)
}

const CHECKS: &str = "p 1 4 => 4 ! sudo_audit: cannot read p;
p 5 5 => 1 q:1: error: undefined Cmnd_Alias UNDEF;
q 1 5 => 4 ! sudo_audit: cannot read q;
q 6 6 => 1 q:1: error: undefined Cmnd_Alias UNDEF;";

#[test]
fn each_read_of_a_policy_may_fail(rt: HostRuntime) -> Result<(), Fail> {
    let alloc = rt.alloc();
    let wrong = wrong_runs(
        alloc,
        CHECKS,
        |path, call| Ok(check_failing(alloc, path, call)?),
    )?;
    assert_eq!(rt; wrong.as_str(), "");
    Ok(())
}

// Shows an expansion of the command alias `A`, with this writer.
fn expansion(alloc: Global, files: &mut Shelf<'_>, mut out: Script) -> Result<String, AllocError> {
    let mut err = Script::of(alloc, b"", 1000)?;
    let status = expand_run(alloc, b"p", files, Kind::Cmnd, b"A", &mut out, &mut err);
    shown(alloc, status, &out, &err)
}

// Shows the same by the reviewer.
fn reviewed_expansion(
    alloc: Global,
    files: &mut Shelf<'_>,
    mut out: Script,
) -> Result<String, AllocError> {
    let mut err = Script::of(alloc, b"", 1000)?;
    let status = review_expand_run(alloc, b"p", files, Kind::Cmnd, b"A", &mut out, &mut err);
    shown(alloc, status, &out, &err)
}

// Shows a run of the command that the word names, with this writer.
fn written<T: Threads + Wait + Sync>(
    alloc: Global,
    rt: &T,
    word: &str,
    out: Script,
) -> Result<String, AllocError> {
    match word {
        "audit" => {
            let readers = readers(alloc, "none", 0)?;
            audit_shown(alloc, rt, &mut Shelf { items: &FILES }, readers, out)
        }
        "check" => check_shown(alloc, &mut Shelf { items: &ALIASES }, out),
        "report" | "rules" => {
            let readers = readers(alloc, "none", 0)?;
            let form = if word == "rules" {
                Form::Rules
            } else {
                Form::Requests
            };
            report_shown(alloc, rt, &mut Shelf { items: &FILES }, readers, form, out)
        }
        "grants" | "roots" | "subjects" => {
            let readers = readers(alloc, "none", 0)?;
            table_shown(alloc, word, &mut Shelf { items: &FILES }, readers, out)
        }
        "cautions" => cautions_shown(alloc, &mut Shelf { items: &CAPITALS }, out),
        "reviewed" => reviewed_expansion(alloc, &mut Shelf { items: &NOTED }, out),
        _ => expansion(alloc, &mut Shelf { items: &ALIASES }, out),
    }
}

// A policy with two warnings, and an alias of three members.
const ALIASES: [Item<'static>; 1] = [Item {
    path: b"p",
    text: b"Cmnd_Alias A = /bin/ls, /bin/cat, !/bin/su\nHost_Alias B = web1\n",
}];

// An alias with a digest and `list`, as they are read.
const NOTED: [Item<'static>; 1] = [Item {
    path: b"p",
    text: b"Cmnd_Alias A = /d[z-a]sha224, /opt/run, !/list[z-a]\n",
}];

// A policy with one caution.
const CAPITALS: [Item<'static>; 1] = [Item {
    path: b"p",
    text: b"Alice ALL = /opt/run\n",
}];

// Returns the program that has the command which the word names.
fn program(word: &str) -> &'static str {
    match word {
        "audit" | "check" | "expand" => "sudo_audit",
        _ => "sudo_review",
    }
}

// Returns the whole output of the command that the word names, on one line.
fn whole(word: &str) -> &'static str {
    match word {
        "audit" => "sender,number,verdict,line,tags;s,1,allow,p:1,NOPASSWD;s,2,unknown-user,,;",
        "check" => "p:1: warning: unused Cmnd_Alias A;p:2: warning: unused Host_Alias B;ok;",
        "report" => {
            "sender,number,user,host,runas_user,runas_group,command,arguments,verdict,place,tags,depends;\
            s,1,alice,web1.example.org,,,/bin/kill,-9 7,allow,p:1,NOPASSWD,;\
            s,2,carol,web1.example.org,,,/bin/kill,,unknown-user,,,;"
        }
        "cautions" => {
            "p:1: caution: case: a name has a capital letter: letter case counts here, not for sudo;\
            cautions: 1;"
        }
        "rules" => "place,commands,allowed,denied,depends;p:1,4,1,0,;",
        "expand" => "/bin/ls;/bin/cat;!/bin/su;",
        "reviewed" => "# digest;/opt/run;!list;",
        _ => table_text(word),
    }
}

// Returns the expected text of a run whose output is whole: its status, what it prints, and for one that judges the line of
// cautions.
fn whole_shown(alloc: Global, word: &str) -> Result<String, AllocError> {
    let text = whole(word);
    match word {
        "audit" | "check" | "expand" | "reviewed" => format!(in alloc; "0 {text}"),
        "cautions" => format!(in alloc; "5 {text}"),
        _ => format!(in alloc; "0 {text}! sudo_review: 1 cautions (linked);"),
    }
}

// Returns the expected text of a run whose writer of ten bytes per call fails at this call.
fn cut_off(alloc: Global, word: &str, call: u64) -> Result<String, AllocError> {
    let gone = call.saturating_sub(1).saturating_mul(10);
    let text = whole(word);
    match text.get(..gone as usize) {
        Some(front) if front.len() < text.len() => {
            let name = program(word);
            format!(in alloc; "4 {front}! {name}: write failed after {gone} bytes;")
        }
        _ => whole_shown(alloc, word),
    }
}

#[test]
fn each_write_may_fail(rt: HostRuntime) -> Result<(), Fail> {
    let alloc = rt.alloc();
    for (word, calls) in [
        ("audit", 9u64),
        ("check", 9),
        ("expand", 4),
        ("reviewed", 4),
        ("report", 23),
        ("cautions", 11),
        ("rules", 6),
        ("grants", 26),
        ("roots", 26),
        ("subjects", 4),
    ] {
        for call in 1..calls.saturating_add(1) {
            let out = Script::of(alloc, b"", 10)?.failing_at(call);
            let found = written(alloc, &rt, word, out)?;
            let wanted = cut_off(alloc, word, call)?;
            assert_eq!(rt; found.as_str(), wanted.as_str());
        }
        let found = written(alloc, &rt, word, Script::of(alloc, b"", 0)?)?;
        let name = program(word);
        let wanted = format!(in alloc; "4 ! {name}: write failed after 0 bytes;")?;
        assert_eq!(rt; found.as_str(), wanted.as_str());
    }
    Ok(())
}

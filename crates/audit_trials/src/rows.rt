//! Sources as text: separated by `|`, each written as its name, a colon, and a word for each row of
//! its file: `close=COUNT`, or the number of a request, `=`, and which request it is.

ghost use Rattle.std.specs.Prelude.{◌≤◌};

use crate::fixtures::{audited, shown, source};
use audit_run::{Open, Script, Source};
use std::alloc::{AllocError, Global};
use std::sync::Wait;
use std::test::Fail;
use std::thread::Threads;

/// The first line of a report.
pub(crate) const HEAD: &str = "sender,number,verdict,line,tags\n";

/// Sources of two senders, one of them in two parts.
pub(crate) const SOURCES: &str = "s: 1=kill 3=su close=3 | t: 1=su close=1 | s: 2=stranger";

/// The report on these sources.
pub(crate) const REPORT: &str =
    "sender,number,verdict,line,tags\ns,1,allow,sudoers:1,NOPASSWD\ns,2,unknown-user,,\ns,3,deny,sudoers:1,\nt,1,deny,sudoers:1,\n";

// Returns the rest of a request's row after its number.
fn request(which: &str) -> &'static str {
    match which {
        "kill" => ",alice,web1.example.org,,,/bin/kill,-9 7\n",
        "su" => ",alice,web1.example.org,,,/bin/su,\n",
        "stranger" => ",carol,web1.example.org,,,/bin/kill,\n",
        "quoted" => ",\"alice\",web1.example.org,,,/bin/kill,\n",
        _ => "\n",
    }
}

// Appends the row for a word, and nothing for an empty word.
fn push_row(rows: &mut String, word: &str) -> Result<(), AllocError> {
    let Some((first, second)) = word.split_once('=') else {
        return Ok(());
    };
    rows.push_str(first)?;
    if first == "close" {
        rows.push(',')?;
        rows.push_str(second)?;
        return rows.push_str(",,,,,\n");
    }
    rows.push_str(request(second))
}

/// Returns the rows of a requests file.
pub(crate) fn rows(alloc: Global, words: &str) -> Result<String, AllocError> {
    let mut rows = String::new(alloc);
    for word in words.split(' ') {
        push_row(&mut rows, word)?;
    }
    Ok(rows)
}

// Appends a source, and nothing for a text without a name.
fn push_source(
    alloc: Global,
    sources: &mut Vec<Source<Script>>,
    text: &str,
) -> Result<(), AllocError> {
    let Some((name, words)) = text.split_once(':') else {
        return Ok(());
    };
    let rows = rows(alloc, words)?;
    let source = source(alloc, name.trim().as_bytes(), rows.as_str().as_bytes())?;
    sources.push(source)?;
    Ok(())
}

/// Returns the sources of a text.
pub(crate) fn sources(alloc: Global, text: &str) -> Result<Vec<Source<Script>>, AllocError> {
    let mut sources = Vec::new(alloc);
    for source in text.split('|') {
        push_source(alloc, &mut sources, source)?;
    }
    Ok(sources)
}

/// Audits the sources of a text, and returns what is printed.
pub(crate) fn printed<R: Threads + Wait + Sync>(
    alloc: Global,
    rt: &R,
    text: &str,
    workers: u32,
) -> Result<String, Fail>
    requires { (1 ≤ workers) × (workers ≤ 16) }
{
    let answer = audited(alloc, rt, sources(alloc, text)?, workers, &Open)?;
    shown(alloc, &answer)
}

//! Tests of tokens, by sudoers(5), "SUDOERS FILE FORMAT" and "Other special characters and reserved words". A row that
//! is this project's own choice has a comment that says so.

use crate::rows::wrong_rows;
use crate::shown::tokens_of;
use std::test::Fail;

// Comments and numbers.
const NUMBERS: &str = "
// `#` begins a comment, but where a user may stand and digits follow, where it begins a user ID: first in a line,
// and after a mark that a user may follow.
#5 a => 0-2 word:#5;3-4 word:a;
#5\\`0 => 0-3 word:#50;
a,#5 => 0-1 word:a;1-2 ,;2-4 word:#5;
a, #5 => 0-1 word:a;1-2 ,;3-5 word:#5;
!#5 => 0-1 !;1-3 word:#5;
(#5:#6 => 0-1 (;1-3 word:#5;3-4 :;4-6 word:#6;
Defaults>#5 => 0-8 word:Defaults;8-9 >;9-11 word:#5;
Defaults x=#5 => 0-8 word:Defaults;9-10 word:x;10-11 =;11-13 word:#5;
// No user follows here.
Defaults x+=#5 => 0-8 word:Defaults;9-10 word:x;10-12 +=;
a #5 => 0-1 word:a;
a#5 => 0-1 word:a;
(a)#5 => 0-1 (;1-2 word:a;2-3 );
/bin/ls #5 => 0-7 command:/bin/ls;
@include a #5 => 0-10 @include:a;
// No digit follows.
a,#b => 0-1 word:a;1-2 ,;
a # \x07 \" \\x => 0-1 word:a;
";

// Lines of Defaults.
const DEFAULTS: &str = "
// A tab between the keyword and its parameter, and a value in quotes that has a mark in it.
Defaults\tsecure_path=\"/usr/local/sbin:/usr/bin\" => 0-8 word:Defaults;9-20 word:secure_path;20-21 =;21-47 quoted:/usr/local/sbin:/usr/bin;
Defaults => 0-8 word:Defaults;
// What a line is bound to follows the keyword directly; elsewhere `@` and `>` belong to words.
Defaults@h => 0-8 word:Defaults;8-9 @;9-10 word:h;
Defaults @h => 0-8 word:Defaults;9-11 word:@h;
Defaults x@y>z => 0-8 word:Defaults;9-14 word:x@y>z;
a@b => 0-3 word:a@b;
Defaultsx => 0-9 word:Defaultsx;
// A value is one word of any bytes but blanks, `,`, quotes and a comment; escapes as in words.
Defaults x = a!=:()/b, c => 0-8 word:Defaults;9-10 word:x;11-12 =;13-21 word:a!=:()/b;21-22 ,;23-24 word:c;
Defaults x=a\\,b\\x2c => 0-8 word:Defaults;9-10 word:x;10-11 =;11-19 word:a~,b~,;
Defaults x=a b=c => 0-8 word:Defaults;9-10 word:x;10-11 =;11-12 word:a;13-14 word:b;14-15 =;15-16 word:c;
Defaults x=/bin/ls -l => 0-8 word:Defaults;9-10 word:x;10-11 =;11-18 word:/bin/ls;19-21 word:-l;
Defaults x=, => 0-8 word:Defaults;9-10 word:x;10-11 =;11-12 ,;
// A word of such a line ends before `+=` and `-=`, a path does not, nor does a word of another line.
Defaults x-=y => 0-8 word:Defaults;9-10 word:x;10-12 -=;12-13 word:y;
Defaults x+y => 0-8 word:Defaults;9-12 word:x+y;
Defaults x\\+=y => 0-8 word:Defaults;9-12 word:x~+;12-13 =;13-14 word:y;
Defaults!/a+=b => 0-8 word:Defaults;8-9 !;9-12 command:/a+;12-13 =;13-14 word:b;
x+=y => 0-2 word:x+;2-3 =;3-4 word:y;
// A command there has no arguments.
Defaults!/bin/ls -l => 0-8 word:Defaults;8-9 !;9-16 command:/bin/ls;17-19 word:-l;
Defaults!sudoedit /a => 0-8 word:Defaults;8-9 !;9-17 command:sudoedit;18-20 command:/a;
";

// Commands.
const COMMANDS: &str = "
// A run of blanks between arguments is one space, none stands before or after them.
/bin/ls  -l \t x  , b => 0-15 command:/bin/ls|-l x;17-18 ,;19-20 word:b;
/bin/ls  , => 0-7 command:/bin/ls;9-10 ,;
/bin/ls -l # all => 0-10 command:/bin/ls|-l;
// `,`, `:`, `=` and `\\` must be escaped in arguments; an `=` that is not is taken as it is (this project's choice).
/bin/ls a\\,b\\:c\\=d\\\\ => 0-20 command:/bin/ls|a~,b~:c~=d~\\;
/bin/ls a=b:c => 0-11 command:/bin/ls|a=b;11-12 :;12-13 word:c;
/bin/ls \\x41 => 0-12 command:/bin/ls|~x41;
// `\"\"` is the argument of a command that takes none.
/bin/ls \"\" => 0-10 command:/bin/ls|\"\";
/bin/a=b => 0-6 command:/bin/a;6-7 =;7-8 word:b;
/bin/a\\ b\\=c => 0-12 command:/bin/a~ b~=c;
/bin/(a)! => 0-9 command:/bin/(a)!;
// `sudoedit` is a command where it is a word of its own, without quotes and escapes.
sudoedit /etc/x => 0-15 command:sudoedit|/etc/x;
sudoeditx => 0-9 word:sudoeditx;
\\sudoedit => 0-9 word:~sudoedit;
\"sudoedit\" a => 0-10 quoted:sudoedit;11-12 word:a;
// Its path goes on as any path does (this project's choice).
sudoedit!x => 0-10 command:sudoedit!x;
sudoedit(x => 0-10 command:sudoedit(x;
";

// Words, quoted words and include lines.
const WORDS: &str = "
// A group ID: `#` directly after the `%` that begins a word.
%#5 => 0-3 word:%#5;
!%#5 => 0-1 !;1-4 word:%#5;
%\\`#5 => 0-3 word:%#5;
a%#5 => 0-2 word:a%;
\\%#5 => 0-2 word:~%;
// An escape gives the byte behind it, or that of two hexadecimal digits.
a\\\\b\\x7e\\ c => 0-11 word:a~\\b~~~ c;
a\"b\" => 0-1 word:a;1-4 quoted:b;
\"\" => 0-2 quoted:;
\"a b,\\\"\\x41\" => 0-12 quoted:a b,~\"~A;
@include /a\\ b\\\" => 0-16 @include:/a~ b~\";
@include \"a b\" c => 0-14 @include:a b;15-16 word:c;
@include => 0-8 @include:;
@include \"\" => 0-11 @include:;
// A `#` begins no comment in a path.
@include #x => 0-11 @include:#x;
#includedir\td # all => 0-13 #includedir:d;
@includex => 0-9 word:@includex;
#includex =>
#include1 a =>
#includedirx =>
#include => 0-8 #include:;
#includedir => 0-11 #includedir:;
a @include b => 0-1 word:a;2-10 word:@include;11-12 word:b;
// A line that a backslash ends goes on with the next one, without its leading blanks; a comment line does not.
a\\`  b`c => 0-2 word:ab;/0-1 word:c;
# a \\`b => /0-1 word:b;
#include\\`b => /0-1 word:b;
a\\\\`b => 0-3 word:a~\\;/0-1 word:b;
a \\`# b => 0-1 word:a;
a\r`\tb\r => 0-1 word:a;/0-1 word:b;
";

// Faults: the leftmost one decides.
const FAULTS: &str = "
\"alice ALL = ALL => 1:1: bad quote
a \"b => 1:3: bad quote
// A quote that nothing closes comes before what stands behind it.
\"a\\x4 => 1:1: bad quote
\"a\\\" => 1:1: bad quote
\"a\\x4\" => 1:3: bad hexadecimal
a\\xg0 ALL = ALL => 1:2: bad hexadecimal
a \\x4\x07 \" => 1:3: bad hexadecimal
a\\ => 1:2: bad escape
alice ALL = /bin/ls \\ => 1:21: bad escape
a\\`  b\\\\\\ => 1:5: bad escape
// A comment does not go on over a join.
a # b \\`c => 1:3: bad escape
a #\\`c => 1:3: bad escape
\x07 ALL = ALL => 1:1: not printable
a\x07 \" => 1:2: not printable
// At the byte itself, also behind a backslash.
a\\\x07 => 1:3: not printable
``/bin/ls \x7f => //3:9: not printable
// A comment line ends where its physical line does.
# old rule \\`alice ALL = \"x => /2:13: bad quote
a\\x07 => 0-5 word:a~\x07;
";

#[test]
fn numbers(rt: HostRuntime) -> Result<(), Fail> {
    assert_eq!(rt; wrong_rows(rt.alloc(), NUMBERS, tokens_of)?.as_str(), "");
    Ok(())
}

#[test]
fn defaults(rt: HostRuntime) -> Result<(), Fail> {
    assert_eq!(rt; wrong_rows(rt.alloc(), DEFAULTS, tokens_of)?.as_str(), "");
    Ok(())
}

#[test]
fn commands(rt: HostRuntime) -> Result<(), Fail> {
    assert_eq!(rt; wrong_rows(rt.alloc(), COMMANDS, tokens_of)?.as_str(), "");
    Ok(())
}

#[test]
fn words(rt: HostRuntime) -> Result<(), Fail> {
    assert_eq!(rt; wrong_rows(rt.alloc(), WORDS, tokens_of)?.as_str(), "");
    Ok(())
}

#[test]
fn faults(rt: HostRuntime) -> Result<(), Fail> {
    assert_eq!(rt; wrong_rows(rt.alloc(), FAULTS, tokens_of)?.as_str(), "");
    Ok(())
}

//! Texts before and behind their masks. Many lines are those of sudo's own tests.

use audit_files::Triple;
use review_texts::{HostAddress, Readable, mask_text};
use std::alloc::{AllocError, Global};
use std::test::Fail;
use sudo_text::Seq;

// Returns the addresses of hosts: two of one network, the second of a name of capital letters; one on another network of the first
// host; one of a network of ten bits, and one of none; the loopback address, and the unspecified one.
fn addresses(alloc: Global) -> Result<Seq<HostAddress>, AllocError> {
    let mut known = Seq::new(alloc);
    for (host, address, len) in [
        ("web1", 0x2001_0db8_0000_0000_0000_0000_0000_0001, 64),
        ("DB", 0x2001_0db8_0000_0000_0000_0000_0000_0005, 64),
        ("web1", 0x2001_0db8_0000_0001_0000_0000_0000_0001, 128),
        ("near", 0xfe80_0000_0000_0000_0000_0000_0000_0009, 10),
        ("flat", 0xabcd_0000_0000_0000_0000_0000_0000_0001, 0),
        ("loop", 1, 128),
        ("bare", 0, 64),
    ] {
        known.push(HostAddress {
            host: Seq::from_slice(alloc, host.as_bytes())?,
            address,
            len,
        })?;
    }
    Ok(known)
}

// Returns that notes are read, and three netgroups: of users on hosts, of capital letters, and without members; two non-Unix groups;
// the name of a host, and addresses of hosts.
fn readable(alloc: Global) -> Result<Readable, AllocError> {
    let mut netgroups = Vec::new(alloc);
    for (netgroup, host, user) in [
        ("ops", "web1", "alice"),
        ("ops", "DB", "DOMAIN"),
        ("ops", "-", "bob b"),
        ("any", "", ""),
        ("none", "-", "-"),
        ("%:ops", "-", "carol"),
        ("%:#5", "", "eve"),
    ] {
        netgroups.push(Triple {
            netgroup: Seq::from_slice(alloc, netgroup.as_bytes())?,
            host: Seq::from_slice(alloc, host.as_bytes())?,
            user: Seq::from_slice(alloc, user.as_bytes())?,
        })?;
    }
    let host = Some(Seq::from_slice(alloc, b"web1.example.org")?);
    Ok(Readable {
        noted: true,
        netgroups,
        host,
        addresses: Some(addresses(alloc)?),
    })
}

// Whether the masked text of each text is the other.
fn are_masked(alloc: Global, rows: &[(&str, &str)]) -> Result<bool, AllocError> {
    let readable = readable(alloc)?;
    for (text, wanted) in rows {
        let masked = mask_text(alloc, &readable, Seq::from_slice(alloc, text.as_bytes())?)?;
        if masked.as_slice() != wanted.as_bytes() {
            return Ok(false);
        }
    }
    Ok(true)
}

// Whether each text stays as it is.
fn are_kept(alloc: Global, texts: &[&str]) -> Result<bool, AllocError> {
    let readable = readable(alloc)?;
    for text in texts {
        if mask_text(alloc, &readable, Seq::from_slice(alloc, text.as_bytes())?)?.as_slice()
            != text.as_bytes()
        {
            return Ok(false);
        }
    }
    Ok(true)
}

#[test]
fn options_become_blanks(rt: HostRuntime) -> Result<(), Fail> {
    let rows = [
        (
            "alice ALL = CWD=/srv NOPASSWD: /bin/ls\n",
            "alice ALL =          NOPASSWD: /bin/ls\n",
        ),
        (
            "a ALL = (bob) ROLE=r_r TYPE = t ALL\n",
            "a ALL = (bob)                   ALL\n",
        ),
        (
            "user1\tALL = CWD=~root /usr/bin/id, CWD=/tmp /bin/ls",
            "user1\tALL =           /usr/bin/id,          /bin/ls",
        ),
        (
            "u ALL = TIMEOUT=7D4H10M30S /b, /c, TIMEOUT=0 /d",
            "u ALL =                    /b, /c,           /d",
        ),
        (
            "u ALL = TIMEOUT=14d /b: web = TIMEOUT=45 ALL",
            "u ALL =             /b: web =            ALL",
        ),
        (
            "u ALL = CWD=* /bin/ls a CWD=/x b",
            "u ALL =       /bin/ls a CWD=/x b",
        ),
        (
            "CWD ALL = CWD=/x ALL # CWD=/x ALL",
            "CWD ALL =        ALL # CWD=/x ALL",
        ),
    ];
    assert!(rt; are_masked(rt.alloc(), &rows)?);
    Ok(())
}

// A digest of 28 bytes, and one of 32, in hexadecimal digits and in base64.
const SHA224: &str = "sha224:d14a028c2a3a2bc9476102bb288234c415a2b01f828ea62ac5b3e42f";

const SHA256: &str = "sha256:47DEQpj8HBSa+/TImW+5JCeuQeRkm5NMpJWZG3hSuFU=";

#[test]
fn roots_and_times_become_notes(rt: HostRuntime) -> Result<(), Fail> {
    let rows = [
        (
            "u ALL = CHROOT=/ /b, CHROOT = /srv/x NOPASSWD: /c",
            "u ALL = /c[z-a]/,/b, /c[z-a]/srv/x,  NOPASSWD: /c",
        ),
        (
            "u ALL = (bob) CHROOT=* CWD=/x /b: web = CHROOT=~bob ALL",
            "u ALL = (bob) /c[z-a]*,       /b: web = /c[z-a]~bob,ALL",
        ),
        (
            "u ALL = NOTBEFORE=20260101000000Z NOTAFTER=2027010100 !/b, /c",
            "u ALL = /t[z-a]b20260101000000Z,  /t[z-a]a2027010100, !/b, /c",
        ),
    ];
    assert!(rt; are_masked(rt.alloc(), &rows)?);
    Ok(())
}

// Appends the value of a digest without its padding, and as many blanks as it has padding.
fn push_note(digest: &str, text: &mut Seq<u8>) -> Result<(), AllocError> {
    text.extend_from_slice(b"/d[z-a]")?;
    for byte in digest.as_bytes().iter().skip(7) {
        if *byte != b'=' {
            text.push(*byte)?;
        }
    }
    text.push(b',')?;
    for byte in digest.as_bytes() {
        if *byte == b'=' {
            text.push(b' ')?;
        }
    }
    Ok(())
}

// Whether the digests in a text become notes, each as long as it was with the byte that follows it.
fn has_noted_digests(
    alloc: Global,
    front: &str,
    digests: &[&str],
    rest: &str,
) -> Result<bool, AllocError> {
    let mut text = Seq::from_slice(alloc, front.as_bytes())?;
    let mut wanted = Seq::from_slice(alloc, front.as_bytes())?;
    for (number, digest) in digests.iter().enumerate() {
        if number > 0 {
            text.extend_from_slice(b", ")?;
            wanted.extend_from_slice(b" ")?;
        }
        text.extend_from_slice(digest.as_bytes())?;
        push_note(digest, &mut wanted)?;
    }
    text.push(b' ')?;
    text.extend_from_slice(rest.as_bytes())?;
    wanted.extend_from_slice(rest.as_bytes())?;
    Ok(mask_text(alloc, &readable(alloc)?, text)?.as_slice() == wanted.as_slice())
}

#[test]
fn digests_become_notes(rt: HostRuntime) -> Result<(), Fail> {
    let alloc = rt.alloc();
    assert!(rt; has_noted_digests(alloc, "u ALL = ", &[SHA224], "/b -x\n")?);
    assert!(rt; has_noted_digests(alloc, "u ALL = (bob) NOPASSWD: ", &[SHA256], "!/b, /c")?);
    assert!(rt;
        has_noted_digests(
            alloc,
            "Cmnd_Alias C = /a, ",
            &[SHA256, SHA224],
            "ALL : D = /c"
        )?
    );
    assert!(rt;
        has_noted_digests(
            alloc,
            "u ALL = ",
            &[SHA224, SHA256, SHA224],
            "\tsudoedit /b"
        )?
    );
    Ok(())
}

#[test]
fn other_digests_stay(rt: HostRuntime) -> Result<(), Fail> {
    let alloc = rt.alloc();
    let rows = [
        ("u ALL = !", " /b"),
        ("u ALL = ", ", /b"),
        ("u ALL = ", " NOPASSWD: /b"),
        ("u ALL = ", " (bob) /b"),
        ("u ALL = ", " CMDS"),
        ("u ALL = ", ""),
        ("u ALL = ", "0 /b"),
        ("Defaults!", " /b noexec"),
    ];
    for (front, rest) in rows {
        let mut text = Seq::from_slice(alloc, front.as_bytes())?;
        text.extend_from_slice(SHA224.as_bytes())?;
        text.extend_from_slice(rest.as_bytes())?;
        let masked = mask_text(
            alloc,
            &readable(alloc)?,
            Seq::from_slice(alloc, text.as_slice())?,
        )?;
        assert!(rt; masked.as_slice() == text.as_slice());
    }
    Ok(())
}

#[test]
fn notes_are_refused_where_none_is_wanted(rt: HostRuntime) -> Result<(), Fail> {
    let alloc = rt.alloc();
    let readable = Readable {
        noted: false,
        netgroups: Vec::new(alloc),
        host: None,
        addresses: None,
    };
    for text in ["u ALL = CHROOT=/x /b", "u ALL = NOTAFTER=2026010100Z /b"] {
        let masked = mask_text(alloc, &readable, Seq::from_slice(alloc, text.as_bytes())?)?;
        assert!(rt; masked.as_slice() == text.as_bytes());
    }
    Ok(())
}

#[test]
fn an_escape_becomes_the_name_of_the_host(rt: HostRuntime) -> Result<(), Fail> {
    let rows = [
        (
            "@include /etc/sudoers.%h\n",
            "@include /etc/sudoers.web1  \n",
        ),
        (
            "a ALL = b\n#includedir \"d/%h.%h\" # %h\n",
            "a ALL = b\n#includedir \"d/web1.web1\" # %h    \n",
        ),
        ("@include \\%h", "@include \\%h"),
        ("@include \\%%h", "@include \\%web1  "),
        ("@include %h x", "@include %h x"),
    ];
    assert!(rt; are_masked(rt.alloc(), &rows)?);
    Ok(())
}

#[test]
fn an_escape_stays_without_the_name_of_a_host(rt: HostRuntime) -> Result<(), Fail> {
    let alloc = rt.alloc();
    for host in [
        None,
        Some(Seq::from_slice(alloc, b"a/b")?),
        Some(Seq::from_slice(alloc, b"..")?),
        Some(Seq::from_slice(alloc, b"")?),
    ] {
        let readable = Readable {
            noted: true,
            netgroups: Vec::new(alloc),
            host,
            addresses: None,
        };
        let text = Seq::from_slice(alloc, b"@include /etc/sudoers.%h")?;
        let masked = mask_text(alloc, &readable, text)?;
        assert!(rt; masked.as_slice() == b"@include /etc/sudoers.%h".as_slice());
    }
    Ok(())
}

#[test]
fn an_address_becomes_its_hosts(rt: HostRuntime) -> Result<(), Fail> {
    let rows = [
        ("u 2001:db8::1 = ALL\n", "u web1        = ALL\n"),
        ("u 2001:DB8:0:0:0::5=ALL", "u \\DB              =ALL"),
        (
            "u 2001:db8:0:0:0:0:0:1 = ALL",
            "u web1                 = ALL",
        ),
        ("u 2001:db8::2, x = ALL", "u [z-a]      , x = ALL"),
        // The number of a host's network, and that of another length.
        ("u 2001:db8:: = ALL", "u web1,\\DB   = ALL"),
        ("u 2001:db8:0:1:: = ALL", "u [z-a]          = ALL"),
        ("u fe80:: = ALL", "u near   = ALL"),
        ("u :: = ALL", "u flat = ALL"),
        // Networks: each host once.
        ("u 2001:db8::/64 = ALL", "u web1,\\DB      = ALL"),
        ("u 2001:db8:9::/32 = ALL", "u web1,\\DB        = ALL"),
        (
            "u 2001:db8:0:1:9::/63 = ALL",
            "u web1,\\DB            = ALL",
        ),
        ("u 2001:db8:0:1:9::/64 = ALL", "u web1                = ALL"),
        ("u 2001:db8::1/128 = ALL", "u web1            = ALL"),
        ("u 2001:db8::/128 = ALL", "u [z-a]          = ALL"),
        ("u fe80::/10 = ALL", "u near      = ALL"),
        ("u ::/1 = ALL", "u web1,\\DB = ALL"),
        ("u 8000::/1 = ALL", "u near,flat = ALL"),
        ("u ::/0 = ALL", "u [z-a] = ALL"),
        ("u ::1 = ALL", "u [z-a] = ALL"),
        ("u ::1/128 = ALL", "u [z-a]   = ALL"),
        ("u ::/128 = ALL", "u [z-a]  = ALL"),
        // Signs, other lists, and several on one line.
        ("u ALL,!2001:db8::/32 = ALL", "u ALL,!web1,!\\DB     = ALL"),
        ("u ! ! 2001:db8::/32 = ALL", "u ! ! web1,\\DB      = ALL"),
        ("u ALL, ! 9::9 = ALL", "u ALL, ! [z-a] = ALL"),
        (
            "Host_Alias A = fe80::9, x : B = !2001:db8::/64\n",
            "Host_Alias A = near   , x : B = !web1,!\\DB    \n",
        ),
        ("Defaults@fe80::9 !lecture", "Defaults@near    !lecture"),
        ("Defaults@x,fe80::9 !lecture", "Defaults@x,near    !lecture"),
        (
            "u x = ALL : fe80::9, +ops = (root) list",
            "u x = ALL : near   , web1,\\DB = (root) /list[z-a]",
        ),
        (
            "u fe80::9, \\\n 2001:db8::/64 = ALL",
            "u near   , web1,\\DB      = ALL\n",
        ),
        ("u fe80::9 = foo", "u near    = foo"),
    ];
    assert!(rt; are_masked(rt.alloc(), &rows)?);
    Ok(())
}

#[test]
fn what_is_no_address_stays(rt: HostRuntime) -> Result<(), Fail> {
    let texts = [
        "u 2001:db8::1::5 = ALL",
        "u 2001:db8:0:0:0:0:0 = ALL",
        "u 2001:db8:0:0:0:0:0:0:1 = ALL",
        "u 1:2:3:4::5:6:7:8 = ALL",
        "u 1:2:3:4:5:6:7:: = ALL",
        "u 02001:db8::1 = ALL",
        "u 2001:db8:::1 = ALL",
        "u :2001:db8::1 = ALL",
        "u 2001:db8::1: = ALL",
        "u 2001:dg8::1 = ALL",
        "u 2001:db8::1/129 = ALL",
        "u 2001:db8::/064 = ALL",
        "u 2001:db8::/ = ALL",
        "u 2001:db8::/6x = ALL",
        "u 2001:db8::/ffff:: = ALL",
        "u ::ffff:10.0.0.1 = ALL",
        "u fe80::9%eth0 = ALL",
        "fe80::9 ALL = ALL",
        "u ALL = (fe80::9) ALL",
        "u ALL = ALL:fe80::9 = ALL",
        "u \"fe80::9\" = ALL",
        "u xfe80::9 = ALL",
        "Defaults@::9 !lecture",
        "u fe80::9, \\\n x = foo",
        "u 2001:\\\ndb8::1 = ALL",
    ];
    assert!(rt; are_kept(rt.alloc(), &texts)?);
    Ok(())
}

#[test]
fn an_address_stays_without_addresses_of_hosts(rt: HostRuntime) -> Result<(), Fail> {
    let alloc = rt.alloc();
    let readable = Readable {
        noted: true,
        netgroups: Vec::new(alloc),
        host: None,
        addresses: None,
    };
    let text = Seq::from_slice(alloc, b"u fe80::9 = ALL")?;
    let masked = mask_text(alloc, &readable, text)?;
    assert!(rt; masked.as_slice() == b"u fe80::9 = ALL".as_slice());
    Ok(())
}

#[test]
fn a_list_becomes_a_path(rt: HostRuntime) -> Result<(), Fail> {
    let rows = [
        ("user1 ALL = list\n", "user1 ALL = /list[z-a]\n"),
        (
            "list list = (list : list) list",
            "list list = (list : list) /list[z-a]",
        ),
        (
            "a ALL = !list, NOPASSWD: list: web = list # list",
            "a ALL = !/list[z-a], NOPASSWD: /list[z-a]: web = /list[z-a] # list",
        ),
        (
            "a ALL = /bin/ls list, list",
            "a ALL = /bin/ls list, /list[z-a]",
        ),
        (
            "Cmnd_Alias A = list : B = /bin/ls, list",
            "Cmnd_Alias A = /list[z-a] : B = /bin/ls, /list[z-a]",
        ),
        (
            "Defaults!list,/bin/ls !env_reset",
            "Defaults!/list[z-a],/bin/ls !env_reset",
        ),
        (
            "a ALL = TIMEOUT=5 list, CWD=/x !list",
            "a ALL =           /list[z-a],        !/list[z-a]",
        ),
    ];
    assert!(rt; are_masked(rt.alloc(), &rows)?);
    Ok(())
}

#[test]
fn an_expression_becomes_a_note_and_a_command(rt: HostRuntime) -> Result<(), Fail> {
    let rows = [
        (
            "u ALL = (root) /b ^(restart|status) (a|b)$\n",
            "u ALL = (root) /r[z-a]28726573746172747c737461747573292028617c6229,/b\n",
        ),
        (
            "u ALL = NOPASSWD: /b/x*  \t^-u [^a-z@.-]+$, /c: web = ^/b/\\.?[0-9_]$ # d",
            "u ALL = NOPASSWD: /r[z-a]2d75205b5e612d7a402e2d5d2b,/b/x*, /c: web = /r[z-a]2f622f5c2e3f5b302d395f5d,/b/ # d",
        ),
        (
            "Cmnd_Alias C = /a, ^/b$, !/c",
            "Cmnd_Alias C = /a, /r[z-a]2f62,/, !/c",
        ),
        (
            "u ALL = CHROOT=/x TIMEOUT=5 /b ^a$",
            "u ALL = /c[z-a]/x,          /r[z-a]61,/b",
        ),
        (
            "u ALL = ^/b/(c|d-[^e]*)$",
            "u ALL = /r[z-a]2f622f28637c642d5b5e655d2a29,ALL",
        ),
        (
            "u ALL = ^/b-_9/(c|\\.d[.-])+$",
            "u ALL = /r[z-a]2f622d5f392f28637c5c2e645b2e2d5d292b,/b-_9/",
        ),
        ("u ALL = ^/b|/c$", "u ALL = /r[z-a]2f627c2f63,ALL"),
        ("u ALL = ^/b/c.$", "u ALL = /r[z-a]2f622f632e,ALL"),
        ("u ALL = ^/b.d/c$", "u ALL = /r[z-a]2f622e642f63,ALL"),
        ("u ALL = ^/*$", "u ALL = /r[z-a]2f2a,ALL"),
        ("u ALL = ^b/c$", "u ALL = /r[z-a]622f63,ALL"),
    ];
    assert!(rt; are_masked(rt.alloc(), &rows)?);
    let texts = [
        "u ALL = !/b ^a$",
        "u ALL = ! ^/b$",
        "u ALL = sudoedit ^/a$",
        "u ALL = ^/b$ -l",
        "u ALL = /b/ ^a$",
        "u ALL = /b ^a$b$",
        "u ALL = /b ^a\\$",
        "u ALL = /b ^a(b$",
        "u ALL = /b ^a)$",
        "u ALL = /b ^(a|)$",
        "u ALL = /b ^[a$",
        "u ALL = /b ^[z-a]$",
        "u ALL = /b ^[a-z-9]$",
        "u ALL = /b ^a+*$",
        "u ALL = /b ^*a$",
        "u ALL = /b ^a{2}$",
        "u ALL = /b ^$",
        "Defaults!^/b$ lecture",
    ];
    assert!(rt; are_kept(rt.alloc(), &texts)?);
    Ok(())
}

#[test]
fn a_netgroup_becomes_its_members(rt: HostRuntime) -> Result<(), Fail> {
    let rows = [
        ("+ops ALL = /b\n", "alice,\"DOMAIN\",bob\\ b ALL = /b\n"),
        (
            "!+ops, !! +ops, root ALL = /b",
            "!alice,!\"DOMAIN\",!bob\\ b, !! alice,\"DOMAIN\",bob\\ b, root ALL = /b",
        ),
        (
            "\"+ops\" +any, !+ops = (+ops, !+none : adm) /b",
            "alice,\"DOMAIN\",bob\\ b ALL , !web1,!\\DB = (alice,\"DOMAIN\",bob\\ b, !\\x00  : adm) /b",
        ),
        (
            "Host_Alias H = +ops : I = +none",
            "Host_Alias H = web1,\\DB : I = [z-a]",
        ),
        ("Runas_Alias R = +any#+ops", "Runas_Alias R = ALL #+ops"),
        ("Defaults@+ops lecture", "Defaults@web1,\\DB lecture"),
        (
            "Defaults:!+ops lecture",
            "Defaults:!alice,!\"DOMAIN\",!bob\\ b lecture",
        ),
        ("Defaults>+any x += y", "Defaults>ALL  x += y"),
        (
            "+any ALL = TIMEOUT=5 sha224:x, /bin/date +ops, list",
            "ALL  ALL =           sha224:x, /bin/date +ops, list",
        ),
        (
            "+any ALL = TIMEOUT=5 /bin/date +ops, list",
            "ALL  ALL =           /bin/date +ops, /list[z-a]",
        ),
    ];
    assert!(rt; are_masked(rt.alloc(), &rows)?);
    let texts = [
        "+unknown ALL = ALL",
        "+ ALL = ALL",
        "+ops\\x ALL = ALL",
        "\"+ops ALL = ALL",
        "\"+ops\"x ALL = ALL",
        "\"+ops\"\"x\" ALL = ALL",
        "+ops\"x\" ALL = ALL",
        "u \"+ops\"+ops = ALL",
        "u ALL = (root : +ops) /b",
        "u ALL = /bin/date +ops",
        "+ops = ALL",
        "u ALL = +ops",
        "Cmnd_Alias C = +ops",
        "Defaults env_keep += \"+ops\"",
        "Defaults!+ops lecture",
    ];
    assert!(rt; are_kept(rt.alloc(), &texts)?);
    Ok(())
}

#[test]
fn a_non_unix_group_becomes_its_users(rt: HostRuntime) -> Result<(), Fail> {
    let rows = [
        ("%:ops ALL = /b\n", "carol ALL = /b\n"),
        (
            "!\"%:ops\", %:#5 ALL = (+none, %:#5) /b",
            "!carol  , eve  ALL = (\\x00 , eve ) /b",
        ),
        (
            "u \"%:ops\" = (%:ops : adm) /b",
            "u \"%:ops\" = (carol : adm) /b",
        ),
        ("Defaults>!%:#5 lecture", "Defaults>!eve  lecture"),
    ];
    assert!(rt; are_masked(rt.alloc(), &rows)?);
    let texts = [
        "%:unknown ALL = ALL",
        "%: ALL = ALL",
        "%:# ALL = ALL",
        "%:#5x ALL = ALL",
        "%\\:ops ALL = ALL",
        "\"%:ops\"x ALL = ALL",
        "\"+%:ops\" ALL = ALL",
        "u %:ops = ALL",
        "u ALL = (root : %:ops) /b",
        "u ALL = %:ops",
        "%:#5, \\\n  root ALL = /b",
    ];
    assert!(rt; are_kept(rt.alloc(), &texts)?);
    Ok(())
}

#[test]
fn lines_stay_at_their_places(rt: HostRuntime) -> Result<(), Fail> {
    let rows = [
        (
            "# a\n  u ALL = list, \\\n  TIMEOUT=5 \\\n\t/bin/ls\n\n",
            "# a\nu ALL = /list[z-a],           /bin/ls\n\n\n\n",
        ),
        (
            "u ALL = list\nb ALL = \\\n ALL\r\n",
            "u ALL = /list[z-a]\nb ALL = \\\n ALL\r\n",
        ),
        (
            "u ALL = list, \\\n list",
            "u ALL = /list[z-a], /list[z-a]\n",
        ),
        ("\n\n  u ALL = list\n\n", "\n\nu ALL = /list[z-a]\n\n"),
    ];
    assert!(rt; are_masked(rt.alloc(), &rows)?);
    Ok(())
}

#[test]
fn faults_stay_at_their_columns(rt: HostRuntime) -> Result<(), Fail> {
    let rows = [
        ("u ALL = CWD=/x foo", "u ALL =        foo"),
        ("u ALL = CWD=/x PRIVS=p ALL", "u ALL =        PRIVS=p ALL"),
    ];
    assert!(rt; are_masked(rt.alloc(), &rows)?);
    let texts = [
        "u ALL = list, foo",
        "u ALL = CWD=/x /b, \\\n foo",
        "u ALL = CWD=/x /b, PRIVS=p /d, \\\n /e",
    ];
    assert!(rt; are_kept(rt.alloc(), &texts)?);
    Ok(())
}

#[test]
fn a_torn_defaults_line_gets_a_blank(rt: HostRuntime) -> Result<(), Fail> {
    let rows = [
        (
            "Defaults\\\n    secure_path=/bin\\:/sbin\nu ALL = list",
            "Defaults secure_path=/bin\\:/sbin\n\nu ALL = /list[z-a]",
        ),
        (
            "Defaults\\\n  env_reset, \\\n  lecture=\"never\"",
            "Defaults env_reset, lecture=\"never\"\n\n",
        ),
    ];
    assert!(rt; are_masked(rt.alloc(), &rows)?);
    let texts = [
        "Defaults\\\n ALL ALL = ALL",
        "Defaults\\\n  env_reset\\\n, lecture",
        "Defaults\\\n  env_reset\r\n",
        "Defaults\\\n  env_reset, \\\n  lecture # x",
        "Defaults\\\n@h env_reset",
        "Defaults @h\\\n env_reset",
    ];
    assert!(rt; are_kept(rt.alloc(), &texts)?);
    Ok(())
}

#[test]
fn what_sudo_may_join_otherwise_stays(rt: HostRuntime) -> Result<(), Fail> {
    let texts = [
        "u ALL = list\r\n",
        "u ALL = CWD=/x NOPASSWD \\\n: /b",
        "u ALL = CWD=/x /b, \\\n\\\n /c",
        "u ALL = CWD=/x /b, \\\n /c # d",
        "u ALL = CWD=/x\\\n /b",
        "u\\ \\\n x ALL = CWD=/x /b",
        "u\\,\\\n x ALL = CWD=/x /b",
    ];
    assert!(rt; are_kept(rt.alloc(), &texts)?);
    Ok(())
}

#[test]
fn what_sudo_refuses_stays(rt: HostRuntime) -> Result<(), Fail> {
    let texts = [
        "u ALL = TIMEOUT=7dd4h10m30s /b",
        "u ALL = TIMEOUT=7d4h10mm30s /b",
        "u ALL = TIMEOUT=4hg10m30s /b",
        "u ALL = TIMEOUT=10m30ss /b",
        "u ALL = TIMEOUT=14g /b",
        "u ALL = NOPASSWD: CWD=/x /b",
        "u ALL = !CWD=/x /b",
        "u ALL = CWD=x /b",
        "u ALL = CWD=\"/x\" /b",
        "u ALL = CWD=/x, /b",
        "u ALL = CWD=/x",
        "u ALL = CWD=/x (root) /b",
        "u ALL = ROLE=R /b",
        "u ALL = TYPE=sudoedit /b",
        "Cmnd_Alias X = CWD=/x /b",
        "u ALL = list x",
        "u ALL = \"list\"",
        "u ALL = CHROOT=x CWD=/y /b",
        "u ALL = NOTBEFORE=2026 /b",
        "u ALL = NOTAFTER=20260101000000+01 /b",
        "u ALL = CHROOT=/x (root) /b",
        "Cmnd_Alias X = CHROOT=/x /b",
        "u ALL = PRIVS=p ALL",
        "foo ALL = CWD=~ron /bin/ls \\\n",
        "u ALL = CWD=/x\\\n/y /b",
        "Defaults!list",
    ];
    assert!(rt; are_kept(rt.alloc(), &texts)?);
    Ok(())
}

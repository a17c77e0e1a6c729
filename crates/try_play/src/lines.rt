//! What lines of scripts say, and lines of edits.

use crate::told::Told;
use ep_script::{LineBad, read_line, read_write_line};
use std::alloc::Global;

/// Whether a line of a script says this.
fn says(alloc: Global, line: &str, said: &str) -> Result<bool, LineBad> {
    let line = read_line(alloc, line.as_bytes())?;
    let mut told = Told::new(alloc);
    told.line(&line)?;
    Ok(told.as_str() == said)
}

/// Why bytes are no line of a script.
fn refusal(alloc: Global, line: &[u8]) -> Option<LineBad> {
    read_line(alloc, line).err()
}

#[test]
fn lines(rt: HostRuntime) {
    for (line, said) in [
        ("", "nothing"),
        ("# anything", "nothing"),
        ("create", "create []"),
        ("create ", "create []"),
        ("create a\\nb\\t\\\\ \"", "create [a\nb\t\\ \"]"),
        ("create  a", "create [ a]"),
        ("set", "set []"),
        ("set \"$cxc", "set [\"$cxc]"),
        ("drop", "drop"),
        ("login A", "login [A]"),
        ("login abcdefghijklmn16", "login [abcdefghijklmn16]"),
        ("guest G", "guest [G]"),
        ("reader R", "reader [R]"),
        ("insert A 007 x", "insert [A] [7] [x]"),
        ("insert A 1  x", "insert [A] [1] [ x]"),
        ("insert A 4294967295 😀", "insert [A] [4294967295] [😀]"),
        ("delete A 2 0", "delete [A] [2] [0]"),
        (
            "format B 1 3 q\"\\\\\\n\\tz v v",
            "format [B] [1] [3] [q\"\\\n\tz] [v v]",
        ),
        ("format A 0 1 k", "format [A] [0] [1] [k] []"),
        ("format A 0 1 k ", "format [A] [0] [1] [k] []"),
        ("attr 😀k 😀", "attr [😀k] [😀]"),
        ("attr k", "attr [k] []"),
        ("attr k ", "attr [k] []"),
        (
            "inject G 18446744073709551615 Z:1>1+1$\\n",
            "inject [G] [18446744073709551615] [Z:1>1+1$\n]",
        ),
        ("undo A", "undo [A]"),
        ("redo A", "redo [A]"),
        ("submit A", "submit [A]"),
        ("take A", "take [A]"),
        ("late A", "late [A]"),
        ("push A", "push [A]"),
        ("hear A", "hear [A]"),
        ("lose A", "lose [A]"),
        ("resume A", "resume [A]"),
        ("crash", "crash"),
        ("crash Dx9 3 old", "crash [Dx9] [3] old"),
        ("crash A 00 new", "crash [A] [0] new"),
        (
            "crash C 4 0f",
            "crash [C] [4] [18446744073709551615] 1 of [15]",
        ),
        ("show A", "show [A]"),
        ("head", "head"),
        ("text 04", "text [4]"),
        ("marks", "marks"),
        ("marks A", "marks of [A]"),
    ] {
        assert_eq!(rt; says(rt.alloc(), line, said), Ok(true), "at {line}");
    }
}

#[test]
fn no_lines(rt: HostRuntime) {
    for line in [
        "create a\\q",
        "create a\\",
        "create\tab",
        "drop x",
        "login",
        "login A ",
        "login 9a",
        "login a_b",
        "login é",
        "login abcdefghijklmnopq",
        "insert A 1",
        "insert A 1 ",
        "insert A  0 x",
        "insert A x y",
        "insert A 4294967296 x",
        "delete A +1 1",
        "delete A 0 1 2",
        "delete A 0 ",
        "format A 0 1",
        "format A 0 1  v",
        "attr",
        "attr  v",
        "inject G 0",
        "inject G 0 ",
        "inject G 18446744073709551616 Z:1>0$",
        "crash ",
        "crash A",
        "crash A 5 old",
        "crash A 1 OLD",
        "crash A 1 0F",
        "crash A 1 7",
        "crash A 1 old ",
        "head ",
        "text -1",
        "text 18446744073709551616",
        "marks A B",
        "undo",
        "redo A B",
        "LOGIN A",
        " login A",
    ] {
        let bad = refusal(rt.alloc(), line.as_bytes());
        assert_eq!(rt; bad, Some(LineBad::Syntax), "at {line}");
    }
    for bytes in [b"\xff".as_slice(), b"#\xff"] {
        let bad = refusal(rt.alloc(), bytes);
        assert_eq!(rt; bad, Some(LineBad::Utf8), "at {bytes:?}");
    }
}

/// Whether a line of edits says this.
fn writes(alloc: Global, line: &str, said: &str) -> Result<bool, LineBad> {
    let line = read_write_line(alloc, line.as_bytes())?;
    let mut told = Told::new(alloc);
    told.write_line(&line)?;
    Ok(told.as_str() == said)
}

/// Why bytes are no line of edits.
fn write_refusal(alloc: Global, line: &[u8]) -> Option<LineBad> {
    read_write_line(alloc, line).err()
}

#[test]
fn lines_of_edits(rt: HostRuntime) {
    for (line, said) in [
        ("", "nothing"),
        ("# anything", "nothing"),
        ("insert 0 a\\n", "insert [0] [a\n]"),
        ("delete 1 2", "delete [1] [2]"),
        ("format 1 2 bold true", "format [1] [2] [bold] [true]"),
    ] {
        assert_eq!(rt; writes(rt.alloc(), line, said), Ok(true), "at {line}");
    }
}

#[test]
fn no_lines_of_edits(rt: HostRuntime) {
    for (line, bad) in [
        (b"insert A 0 a".as_slice(), LineBad::Syntax),
        (b"insert 0", LineBad::Syntax),
        (b"delete 1", LineBad::Syntax),
        (b"create", LineBad::Syntax),
        (b"head", LineBad::Syntax),
        (b"\xff", LineBad::Utf8),
    ] {
        assert_eq!(rt; write_refusal(rt.alloc(), line), Some(bad), "at {line:?}");
    }
}

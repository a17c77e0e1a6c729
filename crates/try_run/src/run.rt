//! The program over a text and a page in memory.

mod doors;
mod page;
mod rows;
mod text;

use doors::{Absent, Quiet};
use ep_disk_mem::{MemFile, MemShelf};
use ep_doors::MemSpawner;
use ep_outside::Failed;
use ep_run::run;
use ep_units::{NoMemory, PadId, Units};
use page::Page;
use rows::{
    AFTER, BEFORE, CRASHES_BEFORE_THE_GATE, CRASHES_BEHIND_THE_GATE, KEPT, LOST, ROWS, UNDOS,
};
use std::alloc::Global;
use std::sync::Wait;
use std::test::Fail;
use std::thread::Threads;
use text::Text;

const SCRIPT: &str =
    "create hello\nlogin A\ninsert A 5 !\nsubmit A\ntake A\npush A\nhear A\nshow A\nhead\n";

const OUTPUT: &str =
    "create rev 0 Z:1>5+5$hello\nlogin A 1.1 rev 0\ninsert A ok\nsubmit A base 0 Z:6>1=5+1$!\ntake A rev 1 Z:6>1=5+1$!\npush A 1\nhear A commit 1\nshow A rev 1 clean \"hello!\\n\"\nhead 1 \"hello!\\n\"\n";

/// What the program runs on.
#[derive(Clone, Copy)]
struct Case<'a> {
    words: &'a str,
    /// What the source gives.
    script: &'a [u8],
    /// The read that fails, counted from 1.
    broken_read: Option<u64>,
    /// The write that fails, counted from 1.
    broken_write: Option<u64>,
    /// What a server tells, a message a line.
    told: &'a str,
    /// The file of the pad `p`; none where it is empty.
    file: &'a [u8],
}

impl<'a> Case<'a> {
    /// These words over devices that have nothing.
    fn of(words: &'a str) -> Case<'a> {
        Case {
            words,
            script: b"",
            broken_read: None,
            broken_write: None,
            told: "",
            file: b"",
        }
    }

    /// A script to be played.
    fn play(script: &'a [u8]) -> Case<'a> {
        Case {
            script,
            ..Case::of("play")
        }
    }
}

/// The words of a line.
fn words_of(alloc: Global, line: &str) -> Result<Vec<String>, NoMemory> {
    let mut words = Vec::new(alloc);
    for word in line.split_whitespace() {
        words.push(String::from_str(alloc, word)?)?;
    }
    Ok(words)
}

/// The file of the pad `p`.
fn file_of(alloc: Global, bytes: &[u8]) -> Result<MemFile, Fail> {
    let name = Units::from_str(alloc, "p")?;
    Ok(MemFile {
        name: PadId::read(alloc, &name)?.ok_or(Failed)?,
        bytes: Vec::from_slice(alloc, bytes)?,
        fails: Vec::new(alloc),
    })
}

/// A shelf of the one file, or of none where that is empty.
fn shelf_of(alloc: Global, bytes: &[u8]) -> Result<MemShelf, Fail> {
    let mut files = Vec::new(alloc);
    if !bytes.is_empty() {
        files.push(file_of(alloc, bytes)?)?;
    }
    Ok(MemShelf::new(alloc, files, Vec::new(alloc))?)
}

/// The status that a case comes to.
fn code_of<R: Wait + Threads>(
    rt: &R,
    alloc: Global,
    case: Case,
    shelf: &mut MemShelf,
    page: &mut Page,
) -> Result<u8, NoMemory> {
    let words = words_of(alloc, case.words)?;
    let status = run(
        rt,
        alloc,
        &words,
        &mut Text::new(case.script, case.broken_read),
        page,
        shelf,
        &mut Quiet {
            alloc,
            told: case.told,
        },
        &mut Absent,
        &mut MemSpawner::new(Vec::new(alloc)),
    );
    Ok(status.code)
}

/// Whether a case comes to this output and this status.
fn comes_to<R: Wait + Threads>(
    rt: &R,
    alloc: Global,
    case: Case,
    output: &str,
    code: u8,
) -> Result<bool, Fail> {
    let mut shelf = shelf_of(alloc, case.file)?;
    let mut page = Page::new(alloc, case.broken_write);
    let came = code_of(rt, alloc, case, &mut shelf, &mut page)?;
    Ok(came == code && page.as_slice() == output.as_bytes())
}

#[test]
fn ample_memory_suffices(rt: HostRuntime) -> Result<(), Fail> {
    let case = Case::play(SCRIPT.as_bytes());
    assert!(rt; comes_to(&rt, rt.alloc(), case, OUTPUT, 0)?);
    Ok(())
}

#[test]
fn scripts(rt: HostRuntime) -> Result<(), Fail> {
    for (script, output, code) in [
        ("", "", 0),
        ("# c\n\nhead", "head gone\n", 0),
        ("create a\\tb\n", "create rev 0 Z:1>a+a$a        b\n", 0),
        ("show Z", "error line 1 unknown\n", 3),
        ("take A\n", "error line 1 unknown\n", 3),
        ("frob", "error line 1 syntax\n", 3),
        (
            "create ab\nguest G\nundo G\n",
            "create rev 0 Z:1>2+2$ab\nguest G 1.1 rev 0\nerror line 3 unknown\n",
            3,
        ),
        (
            "create ab\n\nlogin A\ninject A 0 Z:1>0$\nhead\n",
            "create rev 0 Z:1>2+2$ab\nlogin A 1.1 rev 0\nerror line 4 unknown\n",
            3,
        ),
        // a submission that has become nothing, and a crash within its take
        (
            "create ab\nlogin A\nlogin B\ndelete A 0 1\nsubmit A\ndelete B 0 1\nsubmit B\ntake B\ncrash A 2 new\nhead\nresume A\npush A\nhear A\npush A\nhear A\npush A\nhear A\nsubmit A\ntake A\npush A\nhear A\npush A\nhear A\nshow A\nhead\ncrash\nhead\n",
            "create rev 0 Z:1>2+2$ab\nlogin A 1.1 rev 0\nlogin B 1.2 rev 0\ndelete A ok\nsubmit A base 0 Z:3<1-1$\ndelete B ok\nsubmit B base 0 Z:3<1-1$\ntake B rev 1 Z:3<1-1$\ncrash epoch 2 head 1\nhead 1 \"b\\n\"\nresume A 2.1 head 1\npush A 1\nhear A new 1\npush A none\nhear A none\npush A none\nhear A none\nsubmit A none\ntake A none\npush A none\nhear A none\npush A none\nhear A none\nshow A rev 1 clean \"b\\n\"\nhead 1 \"b\\n\"\ncrash epoch 3 head 1\nhead 1 \"b\\n\"\n",
            0,
        ),
        // guests, crashes, losses, resumptions and a changeset that is none
        (
            "create *\nlogin C\nshow C\nformat C 2 0 color green\ndelete C 2 0\ninsert C 0 *\nlose C\ncrash C 2 01\nreader G\npush C\nshow C\nresume C\nsubmit C\ndelete C 2 1\ninsert C 2 c中\ncrash C 0 00\nresume C\nshow C\nsubmit C\ndelete C 2 1\ntake C\ninsert C 2 éy�xb中\ninsert C 0 # é\\n\nattr insertorder last\nattr bold true\nattr color blue\ninject G 1 Z:0000000003>f*2**1|1+1-2+0*1*002+1*2*01+3*2*1*2+1*2+3*00*1|01=1+3*0+4*1|1+1$\\nyc😀baa \\t\\\\c𐐀😀\\n\npush C\nshow C\nhear C\ntake G\nreader G\nformat C 4294967295 0 color blue\nsubmit C\nguest H\nlose C\nhead\nmarks\n",
            "create rev 0 Z:1>1+1$*\nlogin C 1.1 rev 0\nshow C rev 0 clean \"*\\n\"\nformat C ok\ndelete C ok\ninsert C ok\nlose C ok\ncrash epoch 2 head 0\nreader G 2.1 rev 0\npush C none\nshow C rev 0 local \"**\\n\"\nresume C 2.2 head 0\nsubmit C base 0 Z:2>1+1$*\ndelete C ok\ninsert C ok\ncrash epoch 3 head 0\nresume C 3.1 head 0\nshow C rev 0 both \"**c中\"\nsubmit C base 0 Z:2>1+1$*\ndelete C ok\ntake C rev 1 Z:2>1+1$*\ninsert C ok\ninsert C ok\nattr 0\nattr 1\nattr 2\ninject G ok\npush C 1\nshow C rev 0 both \"# é\\n**éy�xb中中\"\nhear C commit 1\ntake G refused read syntax 17\nreader G 3.2 rev 1\nformat C refused place\nsubmit C base 1 Z:3>a|1+4=2|1-1+7$# é\\néy�xb中中\nguest H 3.3 rev 1\nlose C ok\nhead 1 \"**\\n\"\nmarks 1 |1+3 {\"nextNum\":0,\"numToAttrib\":{}}\n",
            0,
        ),
    ] {
        let case = Case::play(script.as_bytes());
        assert!(rt;
            comes_to(&rt, rt.alloc(), case, output, code)?,
            "at {script}"
        );
    }
    Ok(())
}

#[test]
fn worked_rows(rt: HostRuntime) -> Result<(), Fail> {
    for (script, output) in ROWS {
        let case = Case::play(script.as_bytes());
        assert!(rt; comes_to(&rt, rt.alloc(), case, output, 0)?, "at {script}");
    }
    Ok(())
}

/// Whether a crash within a take leads to this.
fn crash_leads<R: Wait + Threads>(
    rt: &R,
    alloc: Global,
    crash: &str,
    then: &str,
) -> Result<bool, Fail> {
    let script = format!(in alloc; "{}crash A {crash}\n{}", BEFORE.0, AFTER)?;
    let output = format!(in alloc; "{}{then}", BEFORE.1)?;
    comes_to(rt, alloc, Case::play(script.as_bytes()), output.as_str(), 0)
}

#[test]
fn crashes_within_a_take(rt: HostRuntime) -> Result<(), Fail> {
    for crash in CRASHES_BEFORE_THE_GATE {
        assert!(rt; crash_leads(&rt, rt.alloc(), crash, LOST)?, "at {crash}");
    }
    for crash in CRASHES_BEHIND_THE_GATE {
        assert!(rt; crash_leads(&rt, rt.alloc(), crash, KEPT)?, "at {crash}");
    }
    Ok(())
}

#[test]
fn undo_and_redo(rt: HostRuntime) -> Result<(), Fail> {
    for (script, output) in UNDOS {
        let case = Case::play(script.as_bytes());
        assert!(rt; comes_to(&rt, rt.alloc(), case, output, 0)?, "at {script}");
    }
    Ok(())
}

#[test]
fn bad_utf8_ends_a_script(rt: HostRuntime) -> Result<(), Fail> {
    for (script, output) in [
        (b"\xff".as_slice(), "error line 1 utf8\n"),
        (
            b"head\n# \xff\n".as_slice(),
            "head gone\nerror line 2 utf8\n",
        ),
    ] {
        let case = Case::play(script);
        assert!(rt; comes_to(&rt, rt.alloc(), case, output, 3)?, "at {output}");
    }
    Ok(())
}

const USAGE: &str =
    "usage: padd play [NAME] | serve PADS API DIR KEY | write ADDR PAD TOKEN | verify DIR WORKERS | make NUMBER CLIENTS EDITS\n";

#[test]
fn words(rt: HostRuntime) -> Result<(), Fail> {
    for (words, output, code) in [
        ("", USAGE, 2),
        ("fly", USAGE, 2),
        ("-h", USAGE, 2),
        ("play x y", USAGE, 2),
        ("play -x", USAGE, 2),
        ("play a$b", USAGE, 2),
        ("play r.x", USAGE, 2),
        ("play g.abcdefghij000000$n", USAGE, 2),
        ("play notes", OUTPUT, 0),
    ] {
        let case = Case {
            script: SCRIPT.as_bytes(),
            ..Case::of(words)
        };
        assert!(rt;
            comes_to(&rt, rt.alloc(), case, output, code)?,
            "at {words}"
        );
    }
    Ok(())
}

/// Whether a comment of so many bytes and another line come to this.
fn comment_comes_to<R: Wait + Threads>(
    rt: &R,
    alloc: Global,
    bytes: usize,
    output: &str,
    code: u8,
) -> Result<bool, Fail> {
    let mut script = vec![in alloc; b'#'; bytes]?;
    script.extend_from_slice(b"\nhead\n")?;
    comes_to(rt, alloc, Case::play(&script), output, code)
}

#[test]
fn one_byte_too_many_is_refused(rt: HostRuntime) -> Result<(), Fail> {
    for (bytes, output, code) in [
        (1_048_576, "head gone\n", 0),
        (1_048_577, "error line 1 long\n", 3),
    ] {
        assert!(rt;
            comment_comes_to(&rt, rt.alloc(), bytes, output, code)?,
            "at {bytes}"
        );
    }
    Ok(())
}

#[test]
fn fault_leaves_a_beginning(rt: HostRuntime) -> Result<(), Fail> {
    for (broken_read, broken_write, output, code) in [
        (Some(1), None, "", 4),
        (Some(6), Some(1), "create rev 0 ", 5),
        (Some(6), None, "create rev 0 Z:1>5+5$hello\n", 4),
        (None, Some(1), "create rev 0 ", 5),
        (None, Some(2), "create rev 0 Z:1>5+5$hello\nlogin A 1", 5),
    ] {
        let case = Case {
            broken_read,
            broken_write,
            ..Case::play(SCRIPT.as_bytes())
        };
        assert!(rt;
            comes_to(&rt, rt.alloc(), case, output, code)?,
            "at {broken_read:?} and {broken_write:?}"
        );
    }
    Ok(())
}

const EMPTY: &str =
    r#"{"data":{"birth":1,"collab_client_vars":{"apool":{"nextNum":0,"numToAttrib":{}},"initialAttributedText":{"attribs":"|1+1","text":"\n"},"rev":0,"time":5},"padId":"p","readonly":false,"session":"1.1","userId":"a.1"},"type":"CLIENT_VARS"}"#;

const DENIED: &str = r#"{"accessStatus":"deny"}"#;

// As EMPTY, and then that the first edit is committed.
const COMMITTED: &str =
    r#"{"data":{"birth":1,"collab_client_vars":{"apool":{"nextNum":0,"numToAttrib":{}},"initialAttributedText":{"attribs":"|1+1","text":"\n"},"rev":0,"time":5},"padId":"p","readonly":false,"session":"1.1","userId":"a.1"},"type":"CLIENT_VARS"}
{"data":{"newRev":1,"session":"1.1","type":"ACCEPT_COMMIT"},"type":"COLLABROOM"}"#;

#[test]
fn writes_to_a_server(rt: HostRuntime) -> Result<(), Fail> {
    for (told, script, output, code) in [
        (COMMITTED, "insert 0 hi\n", "rev 1 \"hi\\n\"\n", 0),
        (EMPTY, "insert 9 x", "error line 1 place\n", 3),
        (DENIED, "", "refused {\"accessStatus\":\"deny\"}\n", 10),
        ("", "", "", 11),
    ] {
        let case = Case {
            script: script.as_bytes(),
            told,
            ..Case::of("write :1 p t")
        };
        assert!(rt;
            comes_to(&rt, rt.alloc(), case, output, code)?,
            "with status {code}"
        );
    }
    Ok(())
}

#[test]
fn serves_who_comes(rt: HostRuntime) -> Result<(), Fail> {
    let case = Case::of("serve :1 :2 d k");
    assert!(rt; comes_to(&rt, rt.alloc(), case, "ready\n", 0)?);
    Ok(())
}

#[test]
fn judges_files(rt: HostRuntime) -> Result<(), Fail> {
    for (file, output, code) in [
        (b"".as_slice(), "", 0),
        (b"EPADJNL1\0".as_slice(), "\"p\" absent\n", 0),
        (b"0123456789".as_slice(), "\"p\" foreign\n", 1),
        // an opening, and then a flag that no pad has yet
        (
            b"EPADJNL1\x01\0\0\0\x09\x01\0\0\0\0\0\0\0\x01\x01\0\0\0\x02\x05\x01\0".as_slice(),
            "\"p\" record 1\n",
            1,
        ),
    ] {
        let case = Case {
            file,
            ..Case::of("verify d 2")
        };
        assert!(rt;
            comes_to(&rt, rt.alloc(), case, output, code)?,
            "at {output}"
        );
    }
    Ok(())
}

/// These bytes, and 1 MiB of noise behind them.
fn noise_behind(alloc: Global, front: &[u8]) -> Result<Vec<u8>, NoMemory> {
    let mut bytes = Vec::from_slice(alloc, front)?;
    let mut state: u64 = 1;
    for _ in 0..1_048_576u32 {
        state = state
            .wrapping_mul(6_364_136_223_846_793_005)
            .wrapping_add(1_442_695_040_888_963_407);
        let [byte, ..] = state.to_be_bytes();
        bytes.push(byte)?;
    }
    Ok(bytes)
}

/// Whether a file of noise is judged so.
fn noise_is<R: Wait + Threads>(
    rt: &R,
    alloc: Global,
    front: &[u8],
    output: &str,
    code: u8,
) -> Result<bool, Fail> {
    let file = noise_behind(alloc, front)?;
    let case = Case {
        file: &file,
        ..Case::of("verify d 2")
    };
    comes_to(rt, alloc, case, output, code)
}

#[test]
fn judges_noise(rt: HostRuntime) -> Result<(), Fail> {
    for (front, output, code) in [
        // no gate; a gate and a length above the greatest; a record of noise, the first and behind an opening
        (b"EPADJNL1".as_slice(), "\"p\" absent\n", 0),
        (b"EPADJNL1\x01\xff".as_slice(), "\"p\" absent\n", 0),
        (b"EPADJNL1\x01\0\x0f\0\0".as_slice(), "\"p\" record 0\n", 1),
        (
            b"EPADJNL1\x01\0\0\0\x09\x01\0\0\0\0\0\0\0\x01\x01\0\x0f\0\0".as_slice(),
            "\"p\" record 1\n",
            1,
        ),
    ] {
        assert!(rt;
            noise_is(&rt, rt.alloc(), front, output, code)?,
            "at {output}"
        );
    }
    Ok(())
}

#[test]
fn makes_a_schedule(rt: HostRuntime) -> Result<(), Fail> {
    let case = Case::of("make 7 2 0");
    let output = "clients 2\nedits 0\nrevisions 1\nunits 1\nagreeing 2\n";
    assert!(rt; comes_to(&rt, rt.alloc(), case, output, 0)?);
    Ok(())
}

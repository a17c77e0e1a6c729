//! Words, and what they ask for.

use ep_words::{Command, WordsBad, read_words};
use std::alloc::{AllocError, Global};
use std::test::Fail;

/// A word, which is empty for `_`.
fn word_of(alloc: Global, word: &str) -> Result<String, AllocError> {
    String::from_str(alloc, if word == "_" { "" } else { word })
}

/// Words that stand with one blank between them.
fn words_of(alloc: Global, line: &str) -> Result<Vec<String>, AllocError> {
    let mut words = Vec::new(alloc);
    for word in line.split(' ') {
        words.push(word_of(alloc, word)?)?;
    }
    Ok(words)
}

/// The command of this name, with these texts and numbers, each in their order.
fn is_command(command: &Command<'_>, name: &str, texts: &[&str], numbers: &[u64]) -> bool {
    match command {
        Command::Play { pad } => {
            name == "play" && pad.as_slice() == b"pad".map(u16::from).as_slice()
        }
        Command::Serve {
            pads,
            api,
            dir,
            key,
        } => name == "serve" && texts == [*pads, *api, *dir, *key].as_slice(),
        Command::Write { addr, pad, token } => {
            name == "write" && texts == [*addr, *pad, *token].as_slice()
        }
        Command::Verify { dir, workers } => {
            name == "verify" && texts == [*dir].as_slice() && numbers == [*workers].as_slice()
        }
        Command::Make {
            number,
            clients,
            edits,
        } => name == "make" && numbers == [*number, *clients, *edits].as_slice(),
    }
}

/// Whether the words ask for that command.
fn is_asked(
    alloc: Global,
    line: &str,
    name: &str,
    texts: &[&str],
    numbers: &[u64],
) -> Result<bool, Fail> {
    let words = words_of(alloc, line)?;
    let command = read_words(alloc, &words)?;
    Ok(is_command(&command, name, texts, numbers))
}

#[test]
fn asked(rt: HostRuntime) -> Result<(), Fail> {
    let no_texts: &[&str] = &[];
    let no_numbers: &[u64] = &[];
    for (line, name, texts, numbers) in [
        ("play", "play", no_texts, no_numbers),
        (
            "serve :9001 :9002 pads k",
            "serve",
            &[":9001", ":9002", "pads", "k"],
            no_numbers,
        ),
        (
            "write :9001 p t.1",
            "write",
            &[":9001", "p", "t.1"],
            no_numbers,
        ),
        ("verify pads 064", "verify", &["pads"], &[64]),
        (
            "make 18446744073709551615 1 100000",
            "make",
            no_texts,
            &[u64::MAX, 1, 100_000],
        ),
    ] {
        assert!(rt;
            is_asked(rt.alloc(), line, name, texts, numbers)?,
            "at {line}"
        );
    }
    Ok(())
}

fn is_refused(alloc: Global, line: &str) -> Result<bool, AllocError> {
    let words = words_of(alloc, line)?;
    Ok(matches!(read_words(alloc, &words), Err(WordsBad::Usage)))
}

const REFUSED: [&str; 34] = [
    "_",
    "fly",
    "pla",
    "Play",
    "help",
    "help play",
    "-h",
    "--version",
    "play -h",
    "play --",
    "play a b",
    "play _",
    "play a$b",
    "play r.x",
    "play g.abcdefghijklmnop$x",
    "_ play",
    "serve a b c",
    "serve a b c _",
    "serve a b c d e",
    "serve a b c -d",
    "write a p",
    "write a p t u",
    "verify d",
    "verify d 0",
    "verify d 65",
    "verify d +1",
    "verify d _",
    "verify d 1 2",
    "make 1 1",
    "make 18446744073709551616 1 1",
    "make 1 0 1",
    "make 1 65 1",
    "make 1 1 100001",
    "make 1 1 1 1",
];

#[test]
fn refused(rt: HostRuntime) -> Result<(), Fail> {
    for line in REFUSED {
        assert!(rt; is_refused(rt.alloc(), line)?, "at {line}");
    }
    Ok(())
}

#[test]
fn no_words(rt: HostRuntime) {
    assert!(rt; matches!(read_words(rt.alloc(), &[]), Err(WordsBad::Usage)));
}

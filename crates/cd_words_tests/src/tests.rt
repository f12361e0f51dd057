use cd_base::Hash256;
use cd_words::{Command, Page, WordFault, client_words, is_run, page_of, page_text, read_words};
use std::alloc::{AllocError, Global};
use std::test::Fail;

const USAGE: &str = "the words are not a command with its options";

/// The id of a block, for which an `@` stands in a line.
const ID: &str =
    "(-1,8000000000000000,0):aaaaaaaaaaaaaaaaaaaaaaaaaaaaaaaaaaaaaaaaaaaaaaaaaaaaaaaaaaaaaaaa:0000000000000000000000000000000000000000000000000000000000000000";

/// Lines that are taken, with a `|` between their words.
const TAKEN: [&str; 15] = [
    "zero|--workchain|2147483647",
    "zero|--workchain=0",
    "zero|--file|ABABABABABABABABABABABABABABABABABABABABABABABABABABABABABABABAB",
    "zero|--file=aBaBaBaBaBaBaBaBaBaBaBaBaBaBaBaBaBaBaBaBaBaBaBaBaBaBaBaBaBaBaBaB|--workchain|7",
    "replay|--to=a",
    "replay|--db|x|--to|-|--to=|--to|--db",
    "run|--to|--|--to|b",
    "check",
    "check|--db=",
    "check|--db|",
    "check|--db|-",
    "migrate|--db=a=b",
    "export|--id|@",
    "export|--id=@|--max|2097152|--to|b|--db|c",
    "gen|--number|18446744073709551615",
];

/// Lines that aren't those of a command with its options.
const UNKNOWN: [&str; 34] = [
    "Zero",
    "zero|zero",
    "zero|--workchain|-1",
    "zero|--workchain",
    "zero|--workchain=1|--workchain=1",
    "zero|--",
    "zero|--|--file",
    "zero|--to|x",
    "zero|--max|1",
    "zero|--unknown",
    "zero|-x",
    "zero|",
    "replay|--workchain|1",
    "replay|x",
    "replay|--to",
    "replay|--number|1",
    "replay|--to|a|b",
    "replay|--|--to|x",
    "--workchain|1|zero",
    "--to|a|replay",
    "check|--db|-x",
    "check|--db|x|--db=x",
    "migrate|--to=x",
    "export",
    "export|--max=1",
    "export|--id=x|--to",
    "gen",
    "zero|--=x",
    "zero|---workchain=1",
    "zero|-workchain=1",
    "zero|--Workchain=1",
    "zero|--work=1",
    "zero|--help",
    "--help",
];

/// Lines with a value that its option may not have, and the option.
const WRONG: [(&str, &str); 19] = [
    ("zero|--workchain|x", "workchain"),
    ("zero|--workchain|01", "workchain"),
    ("zero|--workchain|2147483648", "workchain"),
    ("zero|--workchain=00", "workchain"),
    ("zero|--workchain=-1", "workchain"),
    ("zero|--workchain=+1", "workchain"),
    (
        "zero|--file|000000000000000000000000000000000000000000000000000000000000000",
        "file",
    ),
    (
        "zero|--file|00000000000000000000000000000000000000000000000000000000000000000",
        "file",
    ),
    (
        "zero|--file|gggggggggggggggggggggggggggggggggggggggggggggggggggggggggggggggg",
        "file",
    ),
    ("zero|--file=", "file"),
    (
        "export|--id|(-1,8000000000000000,0):AAAAAAAAAAAAAAAAAAAAAAAAAAAAAAAAAAAAAAAAAAAAAAAAAAAAAAAAAAAAAAAA:0000000000000000000000000000000000000000000000000000000000000000",
        "id",
    ),
    ("export|--id=@|--max=0", "max"),
    ("export|--max=2097153|--id=x", "max"),
    ("export|--id=x|--max=2097153", "id"),
    ("gen|--number=18446744073709551616", "number"),
    ("gen|--number|00", "number"),
    ("zero|--file=|--workchain=x", "file"),
    ("zero|--workchain=|--file=x", "workchain"),
    ("zero|--workchain==1", "workchain"),
];

fn words(alloc: Global, line: &str) -> Result<Vec<String>, AllocError> {
    let mut words = Vec::new(alloc);
    for word in line.split('|') {
        match word.split_once('@') {
            Some((front, _)) => words.push(format!(in alloc; "{front}{ID}")?)?,
            None => words.push(String::from_str(alloc, word)?)?,
        }
    }
    Ok(words)
}

/// The printed fault of words, and nothing for words that are taken.
fn fault_of(alloc: Global, words: &[String]) -> Result<String, Fail> {
    match read_words(alloc, words) {
        Ok(_) => Ok(String::new(alloc)),
        Err(fault) => Ok(fault.to_string(alloc)?),
    }
}

#[test]
fn lines_are_taken(rt: HostRuntime) -> Result<(), Fail> {
    let alloc = rt.alloc();
    for line in TAKEN {
        let words = words(alloc, line)?;
        let fault = fault_of(alloc, &words)?;
        assert!(rt; fault.is_empty(), "{line}: {fault}");
        assert!(rt; client_words(alloc, &words).is_ok());
    }
    Ok(())
}

#[test]
fn lines_are_no_command(rt: HostRuntime) -> Result<(), Fail> {
    let alloc = rt.alloc();
    for line in UNKNOWN {
        let words = words(alloc, line)?;
        let fault = fault_of(alloc, &words)?;
        assert!(rt; fault.as_str() == USAGE, "{line}: {fault}");
        assert!(rt; client_words(alloc, &words).is_err());
    }
    let none = Vec::new(alloc);
    assert!(rt; read_words(alloc, &none) == Err(WordFault::Usage));
    assert!(rt; !is_run(&none));
    Ok(())
}

#[test]
fn values_are_refused(rt: HostRuntime) -> Result<(), Fail> {
    let alloc = rt.alloc();
    for (line, option) in WRONG {
        let words = words(alloc, line)?;
        let fault = fault_of(alloc, &words)?;
        let due = format!(in alloc; "the value of --{option} is none that it may have")?;
        assert!(rt; fault.as_str() == due.as_str(), "{line}: {fault}");
        assert!(rt; client_words(alloc, &words).is_err());
    }
    Ok(())
}

#[test]
fn what_is_not_given_stands_as_said(rt: HostRuntime) -> Result<(), Fail> {
    let alloc = rt.alloc();
    let zero = Command::Zero {
        workchain: -1,
        file: Hash256([0; 32]),
        db: None,
    };
    assert!(rt; read_words(alloc, &words(alloc, "zero")?) == Ok(zero));
    let found = read_words(alloc, &words(alloc, "export|--id|@")?);
    assert!(rt;
        matches!(
            found,
            Ok(Command::Export {
                max: 2_097_152,
                db: None,
                ..
            })
        )
    );
    Ok(())
}

#[test]
fn values_are_taken(rt: HostRuntime) -> Result<(), Fail> {
    let alloc = rt.alloc();
    let line =
        "zero|--file|aBaBaBaBaBaBaBaBaBaBaBaBaBaBaBaBaBaBaBaBaBaBaBaBaBaBaBaBaBaBaBaB|--workchain=7|--db|x";
    let zero = Command::Zero {
        workchain: 7,
        file: Hash256([0xab; 32]),
        db: Some(String::from_str(alloc, "x")?),
    };
    assert!(rt; read_words(alloc, &words(alloc, line)?) == Ok(zero));
    let feed = Command::Gen { number: 12 };
    assert!(rt; read_words(alloc, &words(alloc, "gen|--number=12")?) == Ok(feed));
    Ok(())
}

#[test]
fn paths_come_in_their_order(rt: HostRuntime) -> Result<(), Fail> {
    let alloc = rt.alloc();
    let line = words(alloc, "run|--to|b|--db=d|--to=a|--to|--to")?;
    let paths = client_words(alloc, &line);
    assert!(rt; paths == Ok(words(alloc, "b|a|--to")?));
    assert!(rt; is_run(&line));
    assert!(rt; !is_run(&words(alloc, "replay|run")?));
    Ok(())
}

#[test]
fn pages_are_asked_for(rt: HostRuntime) -> Result<(), Fail> {
    let alloc = rt.alloc();
    assert!(rt; page_of(&words(alloc, "--help")?) == Some(Page::Help(None)));
    assert!(rt; page_of(&words(alloc, "zero|--version")?) == Some(Page::Version));
    assert!(rt; page_of(&words(alloc, "other|-h")?).is_none());
    assert!(rt; page_of(&words(alloc, "zero|--file=x|-h")?).is_none());
    let page = page_of(&words(alloc, "gen|-h")?).ok_or("no page")?;
    let text = page_text(alloc, page)?;
    assert!(rt; text.as_str().contains("Usage: celldb gen --number <N>"));
    Ok(())
}

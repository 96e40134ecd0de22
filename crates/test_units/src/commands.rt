// Commands, read from words.
use run_words::{Command, read_words};
use std::alloc::Global;
use std::test::Fail;

// The words of a line, which one space separates.
fn words_of(alloc: Global, line: &str) -> Result<Vec<String>, Fail> {
    let mut words = Vec::new(alloc);
    for word in line.split(' ') {
        words.push(String::from_str(alloc, word)?)?;
    }
    Ok(words)
}

fn command(alloc: Global, line: &str) -> Result<Option<Command>, Fail> {
    let words = words_of(alloc, line)?;
    Ok(read_words(words.as_slice()))
}

#[test]
fn reads_words(rt: HostRuntime) -> Result<(), Fail> {
    let training = Command::Train {
        seed: 7,
        count: 3,
        batch: Some(2),
    };
    assert_eq!(rt; command(rt.alloc(), "train J 7 3 2")?, Some(training));
    assert_eq!(rt; command(rt.alloc(), "base x")?, None);
    Ok(())
}

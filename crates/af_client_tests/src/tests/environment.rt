// The words that a tool is run with, by those that were stated and the server of the environment.
use crate::tests::checks::{holds, words_of};
use af_environment::completed_words;
use std::alloc::Global;
use std::process::Abort;
use std::test::Fail;

// Words, the server that the environment names, and the words that are run.
#[derive(Clone, Copy)]
struct Row<'a> {
    what: &'a str,
    words: &'a [&'a str],
    server: Option<&'a str>,
    run: &'a [&'a str],
}

fn assert_run(rt: &impl Abort, alloc: Global, row: &Row<'_>) -> Result<(), Fail> {
    let words = words_of(alloc, row.words)?;
    let Ok(run) = completed_words(alloc, words, row.server) else {
        return Err(Fail::from("no memory"));
    };
    holds(rt, row.what, run.len() == row.run.len());
    for (found, wanted) in run.as_slice().iter().zip(row.run) {
        holds(rt, row.what, found.as_str() == *wanted);
    }
    Ok(())
}

static ROWS: [Row<'static>; 9] = [
    Row {
        what: "a tool without words gets the server",
        words: &["aplay"],
        server: Some("h:1"),
        run: &["aplay", "h:1"],
    },
    Row {
        what: "it comes after the name, before the options",
        words: &["arecord", "--frames=9"],
        server: Some("h:1"),
        run: &["arecord", "h:1", "--frames=9"],
    },
    Row {
        what: "an answering machine gets it",
        words: &["answer", "--calls=1", "--greeting=g", "--message=m"],
        server: Some("h:1"),
        run: &["answer", "h:1", "--calls=1", "--greeting=g", "--message=m"],
    },
    Row {
        what: "a stated server stays",
        words: &["list", "a:2"],
        server: Some("h:1"),
        run: &["list", "a:2"],
    },
    Row {
        what: "no server is named",
        words: &["list"],
        server: None,
        run: &["list"],
    },
    Row {
        what: "a relay states both",
        words: &["apass", "a:1", "--blocks=1"],
        server: Some("h:1"),
        run: &["apass", "a:1", "--blocks=1"],
    },
    Row {
        what: "words that are wrong with a server too stay",
        words: &["aset", "--gain=1"],
        server: Some("h:1"),
        run: &["aset", "--gain=1"],
    },
    Row {
        what: "an option is no server",
        words: &["aset"],
        server: Some("--device=1"),
        run: &["aset"],
    },
    Row {
        what: "no tool is named",
        words: &[],
        server: Some("h:1"),
        run: &[],
    },
];

#[test]
fn the_server_of_the_environment_is_put_in(rt: HostRuntime) -> Result<(), Fail> {
    for row in &ROWS {
        assert_run(&rt, rt.alloc(), row)?;
    }
    Ok(())
}

use base::{Name, RunOptions};
use cli::{Command, FileName, Line, line_of};
use std::alloc::{AllocError, Global};
use std::process::Abort;
use std::test::Fail;

// The words of a line.
fn words_of(alloc: Global, line: &str) -> Result<Vec<String>, AllocError> {
    let mut words = Vec::new(alloc);
    for word in line.split_whitespace() {
        words.push(String::from_str(alloc, word)?)?;
    }
    Ok(words)
}

// Lines, and how their commands are shown.
const COMMANDS: [(&str, &str); 23] = [
    ("-- cull", "Frame(Cull { form: Line })"),
    ("--json cull", "Frame(Cull { form: Json })"),
    ("place", "Frame(Place { form: Line })"),
    ("place --json", "Frame(Place { form: Json })"),
    ("bound", "Frame(Bound { form: Line })"),
    ("bound --json", "Frame(Bound { form: Json })"),
    ("compile", "Frame(Compile { tight: false })"),
    ("--tight compile", "Frame(Compile { tight: true })"),
    ("auto", "Frame(Auto)"),
    ("auto --cost", "Frame(Cost { form: Line })"),
    ("auto --json --cost", "Frame(Cost { form: Json })"),
    (
        "run --trace --tight --workers 3",
        "Run { options: RunOptions { workers: 3, tend: None }, trace: true, tight: true }",
    ),
    ("meaning", "Frame(Meaning)"),
    ("migrate", "Frame(Migrate)"),
    ("check", "Submission(Check { form: Line })"),
    ("check --json", "Submission(Check { form: Json })"),
    ("audit", "Audit"),
    ("gen --number 0", "Gen { number: 0, passes: 64 }"),
    (
        "--passes 1 gen --number 4294967295",
        "Gen { number: 4294967295, passes: 1 }",
    ),
    (
        "gen --number=0000000007 --passes=256",
        "Gen { number: 7, passes: 256 }",
    ),
    (
        "gen --summary --number 1",
        "Summary { number: 1, passes: 64, options: RunOptions { workers: 2, tend: None } }",
    ),
    (
        "gen --number 1 --passes 2 --workers 16 --summary",
        "Summary { number: 1, passes: 2, options: RunOptions { workers: 16, tend: None } }",
    ),
    (
        "--tend 0 --summary gen --workers 1 --number 1",
        "Summary { number: 1, passes: 64, options: RunOptions { workers: 1, tend: Some(0) } }",
    ),
];

// Lines with files, how their commands are shown, and the files with a line feed behind each.
const FILES: [(&str, &str, &str); 12] = [
    ("cull a", "Frame(Cull { form: Line })", "a\n"),
    ("cull - --json", "Frame(Cull { form: Json })", "-\n"),
    ("cull cull", "Frame(Cull { form: Line })", "cull\n"),
    ("auto auto", "Frame(Auto)", "auto\n"),
    ("-- migrate --cost", "Frame(Migrate)", "--cost\n"),
    ("audit ../a.json", "Audit", "../a.json\n"),
    ("check --json a", "Submission(Check { form: Json })", "a\n"),
    (
        "check a - b a --",
        "Submission(Check { form: Line })",
        "a\n-\nb\na\n",
    ),
    (
        "run run",
        "Run { options: RunOptions { workers: 2, tend: None }, trace: false, tight: false }",
        "run\n",
    ),
    (
        "run --workers 1 a --trace",
        "Run { options: RunOptions { workers: 1, tend: None }, trace: true, tight: false }",
        "a\n",
    ),
    (
        "exec -- --trace",
        "Exec { options: RunOptions { workers: 2, tend: None }, trace: false }",
        "--trace\n",
    ),
    ("exec a -- --tend 1", "", ""),
];

// The line of `flight`, how many workers, the seed, the persisting names with a blank behind each, and the depth.
const FLIGHTS: [(&str, u32, Option<u64>, &str, u32); 5] = [
    ("flight", 2, None, "", 2),
    ("flight --persist b", 2, None, "b ", 2),
    (
        "--depth 8 flight --persist=b,A_b-c.9",
        2,
        None,
        "b A_b-c.9 ",
        8,
    ),
    ("flight --workers 3 --depth 01 --tend 5", 3, Some(5), "", 1),
    (
        "flight --persist 1,2,3,4,5,6,7,8,9,10,11,12,13,14,15,16",
        2,
        None,
        "1 2 3 4 5 6 7 8 9 10 11 12 13 14 15 16 ",
        2,
    ),
];

// The line of `exec`, and with the other word of `run`, how many workers, the seed, and whether a trace is wanted.
const RUNS: [(&str, u32, Option<u64>, bool); 8] = [
    ("exec", 2, None, false),
    ("exec --workers 1", 1, None, false),
    ("--workers=16 exec", 16, None, false),
    ("exec --trace", 2, None, true),
    ("exec --tend 0", 2, Some(0), false),
    (
        "--tend 4294967295 --trace -- exec",
        2,
        Some(4_294_967_295),
        true,
    ),
    (
        "exec --workers 0000000007 --tend=0000000010",
        7,
        Some(10),
        false,
    ),
    ("exec --trace --tend 5 --workers 4", 4, Some(5), true),
];

const NO_COMMANDS: [&str; 83] = [
    "",
    "Run",
    "run --help",
    "--version",
    "check --workers 2",
    "meaning --trace",
    "run --workers 17",
    "--tend 1 cull",
    "exec --workers",
    "exec --workers 0",
    "exec --workers 17",
    "exec --workers 00000000002",
    "exec --workers +2",
    "exec --workers -2",
    "exec --workers=",
    "exec --workers 0x2",
    "exec --workers 2 --workers 2",
    "exec --tend 4294967296",
    "exec --tend 18446744073709551616",
    "exec --trace --trace",
    "exec --trace=true",
    "exec -t",
    "exec --passes 4",
    "run --number 1",
    "run --summary",
    "check --number 3",
    "cull --summary",
    "audit --trace",
    "exec --tight",
    "cull --tight",
    "compile --tight --tight",
    "compile --tight --workers 2",
    "gen --number 1 --summary --tight",
    "auto --tight",
    "auto --cost --cost",
    "cull --cost",
    "audit --workers 2",
    "gen",
    "gen --passes 3",
    "gen --number 4294967296",
    "gen --number 1 --passes 0",
    "gen --number 1 --passes 257",
    "gen --number 1 --number 1",
    "gen --number 1 --workers 2",
    "gen --number 1 --tend 2",
    "gen --number 1 --summary --trace",
    "flight --depth 0",
    "flight --depth 9",
    "flight --persist",
    "flight --persist=",
    "flight --persist b,",
    "flight --persist ,b",
    "flight --persist b,b",
    "flight --persist b,c/0",
    "flight --persist b --persist c",
    "flight --persist 1,2,3,4,5,6,7,8,9,10,11,12,13,14,15,16,17",
    "flight --trace",
    "flight --tight",
    "run --persist b",
    "run --depth 2",
    "cull a b",
    "run a b",
    "flight a b",
    "audit a b",
    "exec a -",
    "gen --number 1 a",
    "gen --number 1 -",
    "gen --summary --number 1 a",
    "a",
    "- check",
    "check -a",
    "compile --json",
    "auto --json",
    "meaning --json",
    "migrate --json a",
    "gen --number 1 --json",
    "run --json",
    "exec --json",
    "flight --json",
    "audit --json",
    "check --json --json",
    "cull --json=true",
    "auto --cost --json=1",
];

fn found(alloc: Global, line: &str) -> Result<Option<Line>, Fail> {
    let words = words_of(alloc, line)?;
    Ok(line_of(alloc, words.as_slice())?)
}

// The files with a line feed behind each.
fn files_shown(alloc: Global, files: &[FileName]) -> Result<String, Fail> {
    let mut shown = String::new(alloc);
    for file in files {
        shown.push_str(file.as_str())?;
        shown.push_str("\n")?;
    }
    Ok(shown)
}

// The command of a line, and its files.
fn shown(alloc: Global, line: &str) -> Result<(String, String), Fail> {
    match found(alloc, line)? {
        Some(Line { command, files }) => {
            let command = format!(in alloc; "{command:?}")?;
            Ok((command, files_shown(alloc, &files)?))
        }
        None => Ok((String::new(alloc), String::new(alloc))),
    }
}

fn is_read_as(
    rt: &impl Abort,
    alloc: Global,
    line: &str,
    wanted: &str,
    files: &str,
) -> Result<(), Fail> {
    let found = shown(alloc, line)?;
    assert!(rt;
        found.0.as_str() == wanted && found.1.as_str() == files,
        "{line}"
    );
    Ok(())
}

// The names with a blank behind each.
fn names_shown(alloc: Global, names: &[Name]) -> Result<String, Fail> {
    let mut shown = String::new(alloc);
    for name in names {
        shown.push_str(name.as_str())?;
        shown.push_str(" ")?;
    }
    Ok(shown)
}

fn flies(
    rt: &impl Abort,
    alloc: Global,
    line: &str,
    wanted: RunOptions,
    names: &str,
    layers: u32,
) -> Result<(), Fail> {
    let Some(
        Line {
            command,
            files: _files,
        },
    ) = found(alloc, line)?
    else {
        assert!(rt; false, "{line}");
        return Ok(());
    };
    let Command::Flight {
        options,
        persist,
        depth,
    } = command
    else {
        assert!(rt; false, "{line}");
        return Ok(());
    };
    let shown = names_shown(alloc, &persist)?;
    assert!(rt;
        options == wanted && shown.as_str() == names && depth == layers,
        "{line}"
    );
    Ok(())
}

#[test]
fn command_lines(rt: HostRuntime) -> Result<(), Fail> {
    let alloc = rt.alloc();
    for (line, wanted) in &COMMANDS {
        is_read_as(&rt, alloc, line, wanted, "")?;
    }
    for (line, wanted, files) in &FILES {
        is_read_as(&rt, alloc, line, wanted, files)?;
    }
    for line in &NO_COMMANDS {
        is_read_as(&rt, alloc, line, "", "")?;
    }
    Ok(())
}

#[test]
fn lines_that_run(rt: HostRuntime) -> Result<(), Fail> {
    let alloc = rt.alloc();
    for (line, workers, tend, trace) in &RUNS {
        let options = format!(in alloc;
            "options: RunOptions {{ workers: {workers}, tend: {tend:?} }}, trace: {trace}"
        )?;
        let exec = format!(in alloc; "Exec {{ {options} }}")?;
        is_read_as(&rt, alloc, line, exec.as_str(), "")?;
        let frame_line = line.replace(alloc, "exec", "run")?;
        let run = format!(in alloc; "Run {{ {options}, tight: false }}")?;
        is_read_as(&rt, alloc, frame_line.as_str(), run.as_str(), "")?;
    }
    Ok(())
}

#[test]
fn lines_that_fly(rt: HostRuntime) -> Result<(), Fail> {
    let alloc = rt.alloc();
    for (line, workers, tend, names, depth) in &FLIGHTS {
        let options = RunOptions {
            workers: *workers,
            tend: *tend,
        };
        flies(&rt, alloc, line, options, names, *depth)?;
    }
    Ok(())
}

// What words are a command, and which one.
use crate::lists::listed;
use command_words::{Command, read_command};
use mb_base::NoMemory;
use std::alloc::Global;
use std::process::Abort;

// The word of a command, its digits, its one or two names, and its point.
type Parts<'a> = (&'a str, u8, &'a str, &'a str, [i32; 3]);

// What stands for a point where a command has none, and for a command where there is none.
const NOWHERE: [i32; 3] = [0; 3];

const NOTHING: Parts<'static> = ("", 0, "", "", NOWHERE);

fn parts_of<'a>(found: &Option<Command<'a>>) -> Parts<'a> {
    match found {
        None => NOTHING,
        Some(Command::CopyFile { digits, from, to }) => ("copy", *digits, *from, *to, NOWHERE),
        Some(
            Command::InsideFile {
                digits,
                file,
                point,
            },
        ) => ("inside", *digits, *file, "", point.at()),
        Some(Command::RunScript { digits, script }) => ("run", *digits, *script, "", NOWHERE),
    }
}

fn are_parts(found: &Parts<'_>, wanted: &Parts<'_>) -> bool {
    found.0 == wanted.0
        && found.1 == wanted.1
        && found.2 == wanted.2
        && found.3 == wanted.3
        && found.4 == wanted.4
}

// Whether the words are this command.
fn reads_as(rt: &impl Abort, alloc: Global, words: &[&str], wanted: &Parts<'_>) -> bool {
    let list = listed(alloc, words).expect(rt, "a list");
    match read_command(alloc, &list) {
        Ok(found) => are_parts(&parts_of(&found), wanted),
        Err(NoMemory) => false,
    }
}

// Each row of words is no command.
fn assert_none(rt: &impl Abort, alloc: Global, rows: &[&[&str]]) {
    for words in rows {
        assert!(rt; reads_as(rt, alloc, words, &NOTHING), "at {words:?}");
    }
}

// Each row of words is this command.
fn assert_commands(rt: &impl Abort, alloc: Global, rows: &[(&[&str], Parts<'static>)]) {
    for (words, wanted) in rows {
        assert!(rt; reads_as(rt, alloc, words, wanted), "at {words:?}");
    }
}

static OTHER_WORDS: [&[&str]; 21] = [
    &[],
    &["--help"],
    &["--version"],
    &["help", "run"],
    &["run"],
    &["run", "--help"],
    &["run", "s.txt", "-h"],
    &["run", "s.txt", "-V"],
    &["run", "-é"],
    &["run", ""],
    &["run", "s.txt", "t.txt"],
    &["run", "-s.txt"],
    &["--", "copy", "c.obj", "u.obj"],
    &["copy", "c.obj"],
    &["copy", "c.obj", "u.ply"],
    &["copy", "c.stl", "u.3mf"],
    &["copy", "c.objstl", "u.obj"],
    &["copy", "c.obj", "u.obj", "v.obj"],
    &["copy", "c.obj", "u.obj", ""],
    &["copy", "-c.obj", "u.obj"],
    &["copy", "--", "c.obj", "--", "u.obj"],
];

#[test]
fn other_words_are_no_command(rt: HostRuntime) {
    assert_none(&rt, rt.alloc(), &OTHER_WORDS);
}

static OTHER_DIGITS: [&[&str]; 16] = [
    &["copy", "--digits", "7", "c.obj", "u.obj"],
    &["copy", "--digits=7", "c.obj", "u.obj"],
    &["copy", "--digits=07", "c.obj", "u.obj"],
    &["copy", "--digits=", "c.obj", "u.obj"],
    &["copy", "--digits", "", "c.obj", "u.obj"],
    &["copy", "--digit=3", "c.obj", "u.obj"],
    &["copy", "--digits", "-", "c.obj", "u.obj"],
    &["copy", "c.obj", "u.obj", "--digits"],
    &["copy", "--digits", "--", "4", "c.obj", "u.obj"],
    &["copy", "--digits=3", "c.obj", "u.obj", "--digits=3"],
    &["copy", "--digits", "3", "--digits", "3", "c.obj", "u.obj"],
    &["copy", "--digits", "--digits", "3", "c.obj", "u.obj"],
    &[
        "copy",
        "c.obj",
        "--digits=3",
        "--digits",
        "3",
        "--",
        "u.obj",
    ],
    &["copy", "--digits", "-5", "c.obj", "u.obj"],
    &["copy", "c.obj", "u.obj", "--", "--digits=3"],
    &["--digits", "3", "copy", "c.obj", "u.obj"],
];

#[test]
fn other_digits_are_no_command(rt: HostRuntime) {
    assert_none(&rt, rt.alloc(), &OTHER_DIGITS);
}

static OTHER_POINTS: [&[&str]; 9] = [
    &["inside", "5", "4", "3"],
    &["inside", "c.obj", "5", "4"],
    &["inside", "c.obj", "5", "4", "3", "2"],
    &["inside", "c.ply", "5", "4", "3"],
    &["inside", "c.obj", "-5", "4", "3"],
    &["inside", "c.obj", "5", "4", "3e"],
    &["inside", "c.obj", "5", "4", ""],
    &["inside", "c.obj", "5", "4", "107374.18245"],
    &["inside", "--digits=6", "c.obj", "5", "4", "1073.7418245"],
];

#[test]
fn a_point_has_three_numbers_on_the_grid(rt: HostRuntime) {
    assert_none(&rt, rt.alloc(), &OTHER_POINTS);
}

static NAMED: [(&[&str], Parts<'static>); 4] = [
    (
        &["copy", "c.stl", "u.obj"],
        ("copy", 4, "c.stl", "u.obj", NOWHERE),
    ),
    (
        &["copy", "c.OBJ", "u.sTl"],
        ("copy", 4, "c.OBJ", "u.sTl", NOWHERE),
    ),
    (
        &["copy", ".stl", "--", "-.STL"],
        ("copy", 4, ".stl", "-.STL", NOWHERE),
    ),
    (
        &["inside", "c.STL", "5", "4", "3"],
        ("inside", 4, "c.STL", "", [50_000, 40_000, 30_000]),
    ),
];

#[test]
fn names_of_both_formats_are_taken(rt: HostRuntime) {
    assert_commands(&rt, rt.alloc(), &NAMED);
}

static POINTS: [(&[&str], Parts<'static>); 8] = [
    (
        &["inside", "c.obj", "--", "-5", "4", "3"],
        ("inside", 4, "c.obj", "", [-50_000, 40_000, 30_000]),
    ),
    (
        &["inside", "--", "c.obj", "+5", "4.25", "3e0"],
        ("inside", 4, "c.obj", "", [50_000, 42_500, 30_000]),
    ),
    (
        &["inside", "c.obj", "05", ".5", "1E1"],
        ("inside", 4, "c.obj", "", [50_000, 5_000, 100_000]),
    ),
    (
        &["inside", "c.obj", "5", "4", "10.00004"],
        ("inside", 4, "c.obj", "", [50_000, 40_000, 100_000]),
    ),
    (
        &["inside", "c.obj", "5", "4", "10.00005"],
        ("inside", 4, "c.obj", "", [50_000, 40_000, 100_001]),
    ),
    (
        &["inside", "c.obj", "--digits", "0", "5", "4", "10.4"],
        ("inside", 0, "c.obj", "", [5, 4, 10]),
    ),
    (
        &["inside", "c.obj", "5", "4", "10.4", "--digits=1"],
        ("inside", 1, "c.obj", "", [50, 40, 104]),
    ),
    (
        &["inside", "c.obj", "5", "4", "107374.1824"],
        ("inside", 4, "c.obj", "", [50_000, 40_000, 1_073_741_824]),
    ),
];

#[test]
fn a_point_is_read_as_the_digits_say(rt: HostRuntime) {
    assert_commands(&rt, rt.alloc(), &POINTS);
}

static DIGITS: [(&[&str], Parts<'static>); 8] = [
    (
        &["copy", "a.obj", "b.obj"],
        ("copy", 4, "a.obj", "b.obj", NOWHERE),
    ),
    (
        &["copy", "a.obj", "b.obj", "--digits", "0"],
        ("copy", 0, "a.obj", "b.obj", NOWHERE),
    ),
    (
        &["copy", "a.obj", "--digits", "6", "b.obj"],
        ("copy", 6, "a.obj", "b.obj", NOWHERE),
    ),
    (
        &["copy", "--digits=5", "a.obj", "--", "b.obj"],
        ("copy", 5, "a.obj", "b.obj", NOWHERE),
    ),
    (
        &["copy", "--digits", "1", "--", "a.obj", "b.obj"],
        ("copy", 1, "a.obj", "b.obj", NOWHERE),
    ),
    (
        &["copy", "a.obj", "b.obj", "--digits=2", "--"],
        ("copy", 2, "a.obj", "b.obj", NOWHERE),
    ),
    (
        &["copy", "--", "a.obj", "b.obj"],
        ("copy", 4, "a.obj", "b.obj", NOWHERE),
    ),
    (
        &["copy", "a.obj", "--", "b.obj"],
        ("copy", 4, "a.obj", "b.obj", NOWHERE),
    ),
];

#[test]
fn digits_stand_anywhere_before_the_end_of_options(rt: HostRuntime) {
    assert_commands(&rt, rt.alloc(), &DIGITS);
}

static SCRIPTS: [(&[&str], Parts<'static>); 5] = [
    (&["run", "s.txt"], ("run", 4, "s.txt", "", NOWHERE)),
    (&["run", "--digits", "0", "-"], ("run", 0, "-", "", NOWHERE)),
    (&["run", "--", "-s"], ("run", 4, "-s", "", NOWHERE)),
    (
        &["run", "--", "--digits=é"],
        ("run", 4, "--digits=é", "", NOWHERE),
    ),
    (
        &["run", "a part.stl", "--digits=6"],
        ("run", 6, "a part.stl", "", NOWHERE),
    ),
];

#[test]
fn a_script_has_any_name(rt: HostRuntime) {
    assert_commands(&rt, rt.alloc(), &SCRIPTS);
}

//! Scripts that are refused, and districts that are made. What scripts print that aren't refused is told by the one
//! that the gate runs, in `crates/hub/data`.

use crate::runs::{Given, Turn, assert_scene, assert_turn, new_keepers};
use std::test::Fail;

// Texts of scripts, and what names the first bad line.
static BAD_SCRIPTS: [(&str, &str); 18] = [
    ("outbox\nkeep 1", "refused: script line 2\n"),
    ("keep 0", "refused: script line 1\n"),
    ("keep 100001", "refused: script line 1\n"),
    ("clock 2024-13-01", "refused: script line 1\n"),
    ("set sis", "refused: script line 1\n"),
    ("show orgs", "refused: script line 1\n"),
    ("publish sis=lake", "refused: script line 1\n"),
    ("rehearse script", "refused: script line 1\n"),
    ("make 1", "refused: script line 1\n"),
    ("at 0 restart hub", "refused: script line 1\n"),
    ("at 1 outbox", "refused: script line 1\n"),
    (
        "at 1000000000000001 restart hub",
        "refused: script line 1\n",
    ),
    ("late 2 2", "refused: script line 1\n"),
    ("stale 2 1", "refused: script line 1\n"),
    ("hub fails after 01", "refused: script line 1\n"),
    ("copy fails 1", "refused: script line 1\n"),
    ("exchanges 1", "refused: script line 1\n"),
    ("outbox\tlist", "refused: script line 1\n"),
];

#[test]
fn a_script_has_lines_of_the_table_alone(rt: HostRuntime) -> Result<(), Fail> {
    let mut keepers = new_keepers(rt.alloc());
    for (script, want) in &BAD_SCRIPTS {
        let turn = ("rehearse script", Given::File("script", *script), 4, *want);
        assert_turn(&rt, rt.alloc(), &mut keepers, &turn)?;
    }
    drop(keepers);
    Ok(())
}

const ONE: &str =
    "schools 1\norgs 2\nacademicSessions 2\ncourses 1\nclasses 2\nusers 101\nenrollments 102\ndemographics 0\ncategories 1\nlineItems 0\nresults 0\nresources 0\nclassResources 0\ncourseResources 0\nexchanges 13\ncomplete 2\n";

// Users and enrollments take two pages.
const TWELVE: &str =
    "schools 12\norgs 13\nacademicSessions 2\ncourses 12\nclasses 24\nusers 1212\nenrollments 1224\ndemographics 0\ncategories 1\nlineItems 0\nresults 0\nresources 0\nclassResources 0\ncourseResources 0\nexchanges 15\ncomplete 2\n";

static MADE: [Turn; 3] = [
    (
        "rehearse none",
        Given::Nothing,
        4,
        "refused: none: missing file\n",
    ),
    ("make 1", Given::Nothing, 0, ONE),
    ("make 12", Given::Nothing, 0, TWELVE),
];

#[test]
fn districts_are_made(rt: HostRuntime) -> Result<(), Fail> {
    assert_scene(&rt, rt.alloc(), &MADE)
}

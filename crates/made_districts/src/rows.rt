//! The lines of a school in the files of a district.

ghost use Rattle.std.specs.Prelude.{◌≡◌, ◌++◌, ◌<◌, IfOk, decimal, map, string_bytes};
ghost use Rattle.made_districts.specs.Districts as districts;

use roster_base::NoMemory;
use roster_texts::digits::{push_four, push_three};
use std::alloc::Global;

/// What stands in a file for each school.
#[derive(Clone, Copy)]
pub enum Part {
    /// The school itself.
    Org,
    /// Its one course.
    Course,
    /// The two classes of the course.
    Classes,
    /// Its one teacher, and its students.
    Users,
    /// Each student in one of the classes, and the teacher in both.
    Enrollments,
}

// How many students a school has.
const STUDENTS: u16 = 100;

// The id of a school: `s` and its number in four digits.
fn school_id(alloc: Global, number: u16) -> Result<String, NoMemory>
    requires { number < 10000 }
    ensures { IfOk result (λ t. string_bytes t ≡ districts.school_id number) }
{
    let mut id = String::from_str(alloc, "s")?;
    push_four(&mut id, number)?;
    Ok(id)
}

// The number of a student, in three digits.
fn student_number(alloc: Global, number: u16) -> Result<String, NoMemory>
    requires { number < 1000 }
    ensures { IfOk result (λ t. string_bytes t ≡ districts.student_number number) }
{
    let mut digits = String::new(alloc);
    push_three(&mut digits, number)?;
    Ok(digits)
}

// The pieces, one behind another.
fn joined(alloc: Global, pieces: &[&str]) -> Result<String, NoMemory>
    ensures { IfOk result (λ t. string_bytes t ≡ districts.joined (map (λ p. p.now) pieces.now)) }
{
    let mut text = String::new(alloc);
    for piece in pieces {
        text.push_str(piece)?;
    }
    Ok(text)
}

fn digits(alloc: Global, number: u16) -> Result<String, NoMemory>
    ensures { IfOk result (λ t. string_bytes t ≡ decimal number) }
{
    Ok(format!(in alloc; "{number}")?)
}

fn org(alloc: Global, id: &str, number: u16) -> Result<String, NoMemory>
    ensures { IfOk result (λ t. string_bytes t ≡ districts.org_line id.now number) }
{
    let number = digits(alloc, number)?;
    joined(alloc, &[id, ",,,School ", number.as_str(), ",school,d\n"])
}

fn course(alloc: Global, id: &str) -> Result<String, NoMemory>
    ensures { IfOk result (λ t. string_bytes t ≡ districts.course_line id.now) }
{
    joined(alloc, &[id, "-c,,,Course,", id, "\n"])
}

fn class(alloc: Global, id: &str, number: &str) -> Result<String, NoMemory>
    ensures { IfOk result (λ t. string_bytes t ≡ districts.class_line id.now number.now) }
{
    joined(
        alloc,
        &[
            id,
            "-k",
            number,
            ",,,Class ",
            number,
            ",",
            id,
            "-c,scheduled,",
            id,
            ",t\n",
        ],
    )
}

/// The text with more lines behind it.
pub fn with_lines(text: String, more: String) -> Result<String, NoMemory>
    ensures { IfOk result (λ t. string_bytes t ≡ string_bytes text ++ string_bytes more) }
{
    let mut text = text;
    text.push_str(more.as_str())?;
    drop(more);
    Ok(text)
}

fn classes(alloc: Global, id: &str) -> Result<String, NoMemory>
    ensures { IfOk result (λ t. string_bytes t ≡ districts.class_lines id.now) }
{
    let first = class(alloc, id, "1")?;
    let second = class(alloc, id, "2")?;
    with_lines(first, second)
}

fn user(alloc: Global, school: &str, id: &str, role: &str) -> Result<String, NoMemory>
    ensures { IfOk result (λ t. string_bytes t ≡ districts.user_line school.now id.now role.now) }
{
    joined(
        alloc,
        &[
            id,
            ",,,true,",
            school,
            ",",
            role,
            ",",
            id,
            ",Given,Family\n",
        ],
    )
}

fn teacher(alloc: Global, school: &str) -> Result<String, NoMemory>
    ensures { IfOk result (λ t. string_bytes t ≡ districts.teacher_line school.now) }
{
    let id = joined(alloc, &[school, "-t"])?;
    user(alloc, school, id.as_str(), "teacher")
}

fn student(alloc: Global, school: &str, number: &str) -> Result<String, NoMemory>
    ensures { IfOk result (λ t. string_bytes t ≡ districts.student_line school.now number.now) }
{
    let id = joined(alloc, &[school, "-u", number])?;
    user(alloc, school, id.as_str(), "student")
}

// Odd students are in the first class, and even ones in the second.
fn class_of(student: u16) -> &'static str
    ensures { result.now ≡ districts.class_of student }
{
    if student % 2 == 1 { "1" } else { "2" }
}

// A student's enrollment in a class.
fn enrolled(alloc: Global, school: &str, number: &str, class: &str) -> Result<String, NoMemory>
    ensures { IfOk result (λ t. string_bytes t ≡ districts.enrolled_line school.now number.now class.now) }
{
    joined(
        alloc,
        &[
            school,
            "-e",
            number,
            ",,,",
            school,
            "-k",
            class,
            ",",
            school,
            ",",
            school,
            "-u",
            number,
            ",student\n",
        ],
    )
}

// The teacher's enrollment in a class.
fn teaching(alloc: Global, school: &str, class: &str) -> Result<String, NoMemory>
    ensures { IfOk result (λ t. string_bytes t ≡ districts.teaching_line school.now class.now) }
{
    joined(
        alloc,
        &[
            school,
            "-f",
            class,
            ",,,",
            school,
            "-k",
            class,
            ",",
            school,
            ",",
            school,
            "-t,teacher\n",
        ],
    )
}

// The line of a student, as a user or as one who is enrolled.
fn of_student(alloc: Global, school: &str, number: u16, is_user: bool) -> Result<String, NoMemory>
    requires { number < 1000 }
    ensures { IfOk result (λ t. string_bytes t ≡ districts.of_student is_user school.now number) }
{
    let word = student_number(alloc, number)?;
    if is_user {
        student(alloc, school, word.as_str())
    } else {
        enrolled(alloc, school, word.as_str(), class_of(number))
    }
}

// The lines of all students.
#[tactic(auto, unfolding(crate::specs::Districts::student_lines))]
fn students(alloc: Global, school: &str, is_user: bool) -> Result<String, NoMemory>
    ensures { IfOk result (λ t. string_bytes t ≡ districts.student_lines is_user school.now) }
{
    let mut text = String::new(alloc);
    for place in 0..STUDENTS {
        let line = of_student(alloc, school, place + 1, is_user)?;
        text = with_lines(text, line)?;
    }
    Ok(text)
}

fn users(alloc: Global, school: &str) -> Result<String, NoMemory>
    ensures { IfOk result (λ t. string_bytes t ≡ districts.user_lines school.now) }
{
    let teacher = teacher(alloc, school)?;
    let students = students(alloc, school, true)?;
    with_lines(teacher, students)
}

fn both_teachings(alloc: Global, school: &str) -> Result<String, NoMemory>
    ensures { IfOk result (λ t. string_bytes t ≡ districts.teaching_lines school.now) }
{
    let first = teaching(alloc, school, "1")?;
    let second = teaching(alloc, school, "2")?;
    with_lines(first, second)
}

fn enrollments(alloc: Global, school: &str) -> Result<String, NoMemory>
    ensures { IfOk result (λ t. string_bytes t ≡ districts.enrollment_lines school.now) }
{
    let students = students(alloc, school, false)?;
    let teachings = both_teachings(alloc, school)?;
    with_lines(students, teachings)
}

/// The lines that stand in a file for the school of a number.
pub fn school_lines(alloc: Global, part: Part, number: u16) -> Result<String, NoMemory>
    requires { number < 10000 }
    ensures { IfOk result (λ t. string_bytes t ≡ districts.school_lines part number) }
{
    let id = school_id(alloc, number)?;
    match part {
        Part::Org => org(alloc, id.as_str(), number),
        Part::Course => course(alloc, id.as_str()),
        Part::Classes => classes(alloc, id.as_str()),
        Part::Users => users(alloc, id.as_str()),
        Part::Enrollments => enrollments(alloc, id.as_str()),
    }
}

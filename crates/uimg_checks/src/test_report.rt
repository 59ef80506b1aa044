//! A report of a check as JUnit writes it, for what shows the results of tests.

ghost use Rattle.std.specs.Prelude.{◌≡◌, ◌++◌, IfOk, OnOk, Some};
ghost use Rattle.std.specs.String.{string_bytes};
ghost use Rattle.std.specs.Io.KnownBytes.{Appends};
ghost use Rattle.uimg_checks.specs.TestReports.{beginning, case_by, case_text, counted_if, counts_text, element_of, failing, head_text, is_error, is_failure, nothing_reported, opening, report_text, reported, told_line, with_case};

use crate::answer::Answer;
use crate::line::line_text;
use std::alloc::{AllocError, Global};
use std::fmt::{Display, Formatter};
use std::{fmt, io};
use uimg_printing::{Escaped, Printed};

/// A report of a check as JUnit writes it, in XML: a test case an image. It holds the text of the test
/// cases, since its head has their number.
#[derive(Drop)]
pub struct TestReport {
    cases: Vec<u8>,
    tests: u64,
    failures: u64,
    errors: u64,
}

impl TestReport {
    /// Has no test case yet.
    pub fn new(alloc: Global) -> TestReport
        ensures { reported result ≡ nothing_reported }
    {
        TestReport {
            cases: Vec::new(alloc),
            tests: 0,
            failures: 0,
            errors: 0,
        }
    }

    /// Adds the test case of the image at a path. Its name is the path as a line of the check has it;
    /// an image that is refused or not right is a failure, one that could not be read an error, whose
    /// type is the word and whose message is the line. Fails if memory is refused; the report is of no
    /// use then.
    pub fn add(&mut self, alloc: Global, path: &[u8], answer: &Answer<'_>) -> Result<(), AllocError>
        ensures { OnOk result
            (reported self.new ≡ with_case path.now answer.now (reported self.old)) }
    {
        let status = answer.status();
        let case = case_text(alloc, path, answer)?;
        self.cases.extend_from_slice(case.as_bytes())?;
        self.tests = counted_if(true, self.tests)?;
        self.failures = counted_if(is_failure(status), self.failures)?;
        self.errors = counted_if(is_error(status), self.errors)?;
        Ok(())
    }

    /// Writes the report. Equal answers for equal paths give equal bytes.
    pub fn put<W: io::Write>(&self, out: &mut W) -> io::Result<()>
        ensures { OnOk result (Appends (W.contents out.old) (W.contents out.new)
            (report_text (reported self.now))) }
    {
        self.put_cases(out)?;
        out.write_all(b"  </testsuite>\n</testsuites>\n")
    }

    // Writes the head and the test cases.
    fn put_cases<W: io::Write>(&self, out: &mut W) -> io::Result<()>
        ensures { OnOk result (Appends (W.contents out.old) (W.contents out.new)
            (head_text self.now.tests self.now.failures self.now.errors ++ self.now.cases.items)) }
    {
        let head = Head(Counts {
            tests: self.tests,
            failures: self.failures,
            errors: self.errors,
        });
        write!(out, "{head}")?;
        out.write_all(self.cases.as_slice())
    }
}

fn is_failure(status: u8) -> bool
    ensures { result ≡ is_failure status }
{
    status != 0 && status != 3
}

fn is_error(status: u8) -> bool
    ensures { result ≡ is_error status }
{
    status == 3
}

// Returns one more, if this one counts. No memory has so many images that the number overflows.
fn counted_if(counts: bool, number: u64) -> Result<u64, AllocError>
    ensures { IfOk result (λ next. next ≡ counted_if counts number) }
{
    if !counts {
        return Ok(number);
    }
    match number.checked_add(1) {
        Some(next) => Ok(next),
        None => Err(AllocError),
    }
}

fn case_text(alloc: Global, path: &[u8], answer: &Answer<'_>) -> Result<String, AllocError>
    ensures { IfOk result (λ text. string_bytes text ≡ case_text path.now answer.now) }
{
    let name = format!(in alloc; "{}", Printed(path))?;
    let line = line_text(alloc, path, answer)?;
    let case = Case {
        status: answer.status(),
        name: name.as_str(),
        word: answer.word(),
        line: line.as_str(),
    };
    format!(in alloc; "{case}")
}

// How many test cases there are, and of these how many failures and errors.
#[derive(Clone, Copy)]
struct Counts {
    tests: u64,
    failures: u64,
    errors: u64,
}

impl Display for Counts {
    ghost output = { λ it. Some (counts_text it.tests it.failures it.errors) };

    fn fmt<W: fmt::Write>(&self, f: &mut Formatter<W>) -> fmt::Result {
        write!(
            f,
            "tests=\"{}\" failures=\"{}\" errors=\"{}\"",
            self.tests, self.failures, self.errors
        )
    }
}

// What comes before the test cases.
#[derive(Clone, Copy)]
struct Head(Counts);

impl Display for Head {
    ghost output = { λ head. Some (head_text head.0.tests head.0.failures head.0.errors) };

    #[tactic(auto, unfolding(crate::specs::TestReports::head_text))]
    fn fmt<W: fmt::Write>(&self, f: &mut Formatter<W>) -> fmt::Result {
        write!(
            f,
            "<?xml version=\"1.0\" encoding=\"UTF-8\"?>\n<testsuites>\n  <testsuite name=\"uimg check\" {} time=\"0\">\n",
            self.0
        )
    }
}

// What opens the test case of this name.
#[derive(Clone, Copy)]
struct Opening<'a>(&'a str);

impl<'a> Display for Opening<'a> {
    ghost output = { λ it. Some (opening it.0.now) };

    fn fmt<W: fmt::Write>(&self, f: &mut Formatter<W>) -> fmt::Result {
        write!(
            f,
            "    <testcase name=\"{}\" classname=\"uimg.check\" time=\"0\"",
            Escaped(self.0)
        )
    }
}

// This line, as a message and as a text.
#[derive(Clone, Copy)]
struct Told<'a>(&'a str);

impl<'a> Display for Told<'a> {
    ghost output = { λ it. Some (told_line it.0.now) };

    fn fmt<W: fmt::Write>(&self, f: &mut Formatter<W>) -> fmt::Result {
        write!(f, " message=\"{}\">{}", Escaped(self.0), Escaped(self.0))
    }
}

// What begins an element of this name, by a word.
#[derive(Clone, Copy)]
struct Beginning<'a> {
    element: &'a str,
    word: &'a str,
}

impl<'a> Display for Beginning<'a> {
    ghost output = { λ it. Some (beginning it.element.now it.word.now) };

    fn fmt<W: fmt::Write>(&self, f: &mut Formatter<W>) -> fmt::Result {
        write!(f, "      <{} type=\"{}\"", self.element, self.word)
    }
}

// The element of what is wrong with an image.
#[derive(Clone, Copy)]
struct Failing<'a> {
    element: &'a str,
    word: &'a str,
    line: &'a str,
}

impl<'a> Display for Failing<'a> {
    ghost output = { λ it. Some (failing it.element.now it.word.now it.line.now) };

    fn fmt<W: fmt::Write>(&self, f: &mut Formatter<W>) -> fmt::Result {
        let beginning = Beginning {
            element: self.element,
            word: self.word,
        };
        let told = Told(self.line);
        write!(f, "{beginning}{told}</{}>\n", self.element)
    }
}

fn element_of(status: u8) -> &'static str
    ensures { result.now ≡ element_of status }
{
    if is_error(status) { "error" } else { "failure" }
}

// The test case of an image by its status.
#[derive(Clone, Copy)]
struct Case<'a> {
    status: u8,
    name: &'a str,
    word: &'a str,
    line: &'a str,
}

impl<'a> Display for Case<'a> {
    ghost output = { λ it. Some (case_by it.status it.name.now it.word.now it.line.now) };

    #[tactic(auto, unfolding(crate::specs::TestReports::case_by))]
    fn fmt<W: fmt::Write>(&self, f: &mut Formatter<W>) -> fmt::Result {
        let opening = Opening(self.name);
        if self.status == 0 {
            return write!(f, "{opening}/>\n");
        }
        let failing = Failing {
            element: element_of(self.status),
            word: self.word,
            line: self.line,
        };
        write!(f, "{opening}>\n{failing}    </testcase>\n")
    }
}

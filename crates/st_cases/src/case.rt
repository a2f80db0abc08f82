//! Cases: a program's text, and the sessions over it with the replies that are wanted.
//!
//! A case is a text, behind which its parts stand. A part begins with a line of `--`. Behind `-- session`, with the words `steps N`
//! where a scan may take so many steps, a line of `>` is typed by the operator and any other is a reply. Parts of other kinds are what
//! the program answers of a text whatever the memory is, and are passed over here.
//!
//! Scans of a session may stand in columns, which begin with `|`. The first such line names them: `scan`, inputs, `=>`, and what is
//! shown. Each line behind it is a scan at a moment, with a value for each input that isn't left out by `-`, and the values that are
//! shown after it. One that is forced has a `!` at its end.
use crate::sessions::{STEPS, Session};
use std::alloc::{AllocError, Global};

/// A case.
#[derive(Drop)]
pub struct Case<'a> {
    /// The program's text.
    text: String,
    /// What is done with it.
    pub parts: Vec<Part<'a>>,
}

/// What is done with a text, and what has to come out.
#[derive(Drop)]
pub struct Part<'a> {
    /// What stands behind the `--`.
    words: &'a str,
    /// The lines that are typed in a session.
    typed: String,
    /// What has to be written.
    wanted: String,
    /// The names of the columns of scans.
    columns: &'a str,
}

impl<'a> Case<'a> {
    /// The case with these lines.
    pub fn new(alloc: Global, lines: &'a str) -> Result<Self, AllocError> {
        let mut text = String::new(alloc);
        let mut parts: Vec<Part<'a>> = Vec::new(alloc);
        for line in lines.split('\n') {
            if let Some(words) = line.strip_prefix("-- ") {
                parts.push(Part::new(alloc, words))?;
            } else if let Some(part) = parts.last_mut() {
                part.add(line)?;
            } else {
                writeln!(text, "{line}")?;
            }
        }
        Ok(Case { text, parts })
    }

    /// The session that a part of the case is, where it is one.
    pub fn session<'b>(&'b self, part: &'b Part<'_>) -> Option<Session<'b>> {
        Some(Session {
            text: self.text.as_bytes(),
            steps: part.steps()?,
            typed: part.typed.as_bytes(),
            replies: part.wanted.as_str(),
        })
    }
}

impl<'a> Part<'a> {
    /// The part that a line of `--` with these words begins.
    fn new(alloc: Global, words: &'a str) -> Self {
        Part {
            words,
            typed: String::new(alloc),
            wanted: String::new(alloc),
            columns: "",
        }
    }

    /// How many steps a scan of the session may take, where the part is one.
    fn steps(&self) -> Option<u32> {
        match self.words.strip_prefix("session steps ") {
            Some(digits) => digits.parse::<u32>().ok(),
            None if self.words == "session" => Some(STEPS),
            None => None,
        }
    }

    /// Takes a line more.
    fn add(&mut self, line: &'a str) -> Result<(), AllocError> {
        if let Some(columns) = line.strip_prefix("| scan ") {
            self.columns = columns;
            Ok(())
        } else if let Some(row) = line.strip_prefix("| ") {
            self.add_scan(row)
        } else if let Some(typed) = line.strip_prefix("> ") {
            writeln!(self.typed, "{typed}")
        } else if line.is_empty() {
            Ok(())
        } else {
            writeln!(self.wanted, "{line}")
        }
    }

    /// Takes a scan that stands in columns: its moment and its inputs, and behind the arrow what is shown after it.
    fn add_scan(&mut self, row: &str) -> Result<(), AllocError> {
        let (inputs, outputs) = around_arrow(self.columns);
        let (scan, shown) = around_arrow(row);
        self.add_inputs(scan, inputs)?;
        self.add_shown(shown, outputs)
    }

    /// Takes a scan with values for these inputs. A `-` leaves one out.
    fn add_inputs(&mut self, scan: &str, inputs: &str) -> Result<(), AllocError> {
        let mut words = scan.split_whitespace();
        put(
            &mut self.typed,
            ["scan ", words.next().unwrap_or(""), "", ""],
        )?;
        for (value, input) in words.zip(inputs.split_whitespace()) {
            if value != "-" {
                put(&mut self.typed, [" ", input, ":=", value])?;
            }
        }
        self.typed.push('\n')?;
        self.wanted.push_str("ok\n")
    }

    /// Takes the values that are shown of these.
    fn add_shown(&mut self, values: &str, outputs: &str) -> Result<(), AllocError> {
        for (word, output) in values.split_whitespace().zip(outputs.split_whitespace()) {
            let value = word.strip_suffix('!').unwrap_or(word);
            let end = if word.ends_with('!') {
                " forced\n"
            } else {
                "\n"
            };
            put(&mut self.typed, ["show ", output, "\n", ""])?;
            put(&mut self.wanted, [output, " = ", value, end])?;
        }
        Ok(())
    }
}

/// What stands before the arrow, and what behind it.
fn around_arrow(row: &str) -> (&str, &str) {
    row.split_once("=>").unwrap_or((row, ""))
}

/// Puts pieces behind a text.
fn put(text: &mut String, pieces: [&str; 4]) -> Result<(), AllocError> {
    for piece in pieces {
        text.push_str(piece)?;
    }
    Ok(())
}

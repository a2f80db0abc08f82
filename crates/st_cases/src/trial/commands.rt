//! The commands of a trial.
use std::alloc::{AllocError, Global};

/// A program's text, paths of its leaves and of those of the programs that it is changed to, and commands.
#[derive(Drop)]
pub struct Trial<'a> {
    pub text: &'a str,
    pub paths: &'a str,
    pub commands: Vec<Command<'a>>,
}

/// The lines of a command, each with its line feed, and the reply.
#[derive(Drop)]
pub struct Command<'a> {
    pub lines: String,
    pub reply: &'a str,
}

impl<'a> Trial<'a> {
    /// The trial of a file: the text stands behind its line of `==`.
    pub fn of(alloc: Global, file: &'a str) -> Result<Self, AllocError> {
        let (_, case) = file.split_once("\n== ").unwrap_or(("", ""));
        let (_, lines) = case.split_once('\n').unwrap_or(("", ""));
        let (text, trial) = lines.split_once("-- trial ").unwrap_or((lines, ""));
        let (paths, typed) = trial.split_once('\n').unwrap_or((trial, ""));
        let mut commands = Vec::new(alloc);
        let mut command = Command::new(alloc);
        for line in typed.split('\n') {
            match line.strip_prefix("> ") {
                Some(typed) => command.type_line(typed)?,
                None if line.is_empty() => {}
                None => {
                    command.reply = line;
                    commands.push(command)?;
                    command = Command::new(alloc);
                }
            }
        }
        Ok(Trial {
            text,
            paths,
            commands,
        })
    }
}

impl<'a> Command<'a> {
    /// A command of which nothing was typed.
    fn new(alloc: Global) -> Self {
        Command {
            lines: String::new(alloc),
            reply: "",
        }
    }

    /// Takes a line more.
    fn type_line(&mut self, line: &str) -> Result<(), AllocError> {
        self.lines.push_str(line)?;
        self.lines.push('\n')
    }
}

//! The files of a folder, and the sessions of each.
use crate::blocks::{Block, blocks_of};
use crate::case::Case;
use crate::tally::Tally;
use std::fs::{read_dir, read_to_string};
use std::io;

/// Where a case stands.
#[derive(Clone, Copy)]
struct Place<'a> {
    path: &'a str,
    line: usize,
    name: &'a str,
}

/// Runs the sessions of a folder's files, names those that fail, and says how many each file has.
pub fn run_folder(rt: &HostRuntime, folder: &str) -> io::Result<Tally> {
    let folder = folder.strip_suffix('/').unwrap_or(folder);
    let mut all = Tally::default();
    for name in &case_files(rt, folder)? {
        let path = format!(in rt.alloc(); "{folder}/{name}")?;
        let tally = run_file(rt, &path)?;
        tally.tell(rt, &path, "sessions")?;
        all.add(tally);
    }
    Ok(all)
}

/// The names of a folder's files of cases, in order.
fn case_files(rt: &HostRuntime, folder: &str) -> io::Result<Vec<String>> {
    let mut names = Vec::new(rt.alloc());
    for entry in read_dir(rt, folder)? {
        let entry = entry?;
        let name = entry.file_name();
        if name.ends_with(".cases") {
            names.push(String::from_str(rt.alloc(), name)?)?;
        }
    }
    names.sort()?;
    Ok(names)
}

/// Runs the sessions of a file, and names those that fail.
fn run_file(rt: &HostRuntime, path: &str) -> io::Result<Tally> {
    let file = read_to_string(rt, path)?;
    let mut all = Tally::default();
    for block in &blocks_of(rt.alloc(), &file)? {
        all.add(run_block(rt, path, block)?);
    }
    Ok(all)
}

/// Runs the sessions of a block, and names those that fail.
fn run_block(rt: &HostRuntime, path: &str, block: &Block<'_>) -> io::Result<Tally> {
    let name = block.name;
    let mut all = Tally::default();
    for row in &block.rows {
        let lines = block.case(rt.alloc(), *row)?;
        let line = row.line;
        all.add(run_case(rt, Place { path, line, name }, &lines)?);
    }
    Ok(all)
}

/// Runs the sessions of the case with these lines, and says how each fails that does.
fn run_case(rt: &HostRuntime, place: Place<'_>, lines: &str) -> io::Result<Tally> {
    let case = Case::new(rt.alloc(), lines)?;
    let mut tally = Tally::default();
    for part in &case.parts {
        if let Some(session) = case.session(part) {
            let failure = session.failure(rt.alloc());
            tally.count(failure.is_none());
            if let Some(failure) = failure {
                let Place { path, line, name } = place;
                let (way, lost) = (failure.way, failure.line);
                println!(rt; "{path}:{line}: {name}: {way}: no '{lost}'")?;
            }
        }
    }
    Ok(tally)
}

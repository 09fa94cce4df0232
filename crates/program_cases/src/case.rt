// The text of a case: what is run, on which files, and what it must come to.

use anyhow::{Result, bail, ensure};
use std::alloc::{AllocError, Global};

/// What a section of a case is.
#[derive(Clone, Copy, PartialEq, Eq)]
pub(crate) enum Role {
    /// A file that is there.
    Given,
    /// A file as it must be in the end.
    Wanted,
    /// What must be said.
    Said,
}

/// A section of a case, with the name of its file.
#[derive(Drop)]
pub(crate) struct Section {
    pub(crate) role: Role,
    pub(crate) name: String,
    pub(crate) text: String,
}

/// A case.
#[derive(Drop)]
pub(crate) struct Case {
    /// The lines before the first section: notes, commands and settings.
    head: String,
    pub(crate) sections: Vec<Section>,
}

// This line takes the line feed before it away, as in the output of `diff`.
const CUT: &str = "\\ No newline at end of file\n";

impl Case {
    /// The case of this text.
    pub(crate) fn read(alloc: Global, text: &str) -> Result<Case, AllocError> {
        let mut head = String::new(alloc);
        let mut sections: Vec<Section> = Vec::new(alloc);
        for line in text.split_inclusive('\n') {
            if let Some(title) = title_of(line) {
                sections.push(titled(alloc, title)?)?;
            } else if let Some(section) = sections.last_mut() {
                add(&mut section.text, line)?;
            } else {
                head.push_str(line)?;
            }
        }
        Ok(Case { head, sections })
    }

    /// The lines that say what is run, at least one.
    pub(crate) fn commands(&self, alloc: Global) -> Result<Vec<&str>> {
        let mut commands = Vec::new(alloc);
        for line in self.head.lines() {
            match first_word(line) {
                "fdps" => commands.push(line)?,
                "#" | "status" | "fails" | "moves" | "plain" => {}
                _ => bail!("unknown line {line}"),
            }
        }
        ensure!(!commands.is_empty(), "nothing is run");
        Ok(commands)
    }

    /// The value of a setting that is there.
    pub(crate) fn setting(&self, key: &str) -> Option<&str> {
        for line in self.head.lines() {
            if first_word(line) == key {
                return line.get(key.len()..).map(|value| value.trim());
            }
        }
        None
    }

    /// The text of the section of this role and name.
    pub(crate) fn text(&self, role: Role, name: &str) -> Option<&str> {
        for section in &self.sections {
            if section.role == role && section.name.as_str() == name {
                return Some(section.text.as_str());
            }
        }
        None
    }
}

fn first_word(line: &str) -> &str {
    match line.split_once(' ') {
        Some((word, _)) => word,
        None => line,
    }
}

fn title_of(line: &str) -> Option<&str> {
    line.strip_prefix("-- ")?.strip_suffix(" --\n")
}

// The section of this title, without its text.
fn titled(alloc: Global, title: &str) -> Result<Section, AllocError> {
    let (role, name) = match title.strip_prefix("wants ") {
        Some(name) => (Role::Wanted, name),
        None if title == "says" => (Role::Said, ""),
        None => (Role::Given, title),
    };
    Ok(Section {
        role,
        name: String::from_str(alloc, name)?,
        text: String::new(alloc),
    })
}

fn add(text: &mut String, line: &str) -> Result<(), AllocError> {
    if line == CUT {
        text.pop();
        return Ok(());
    }
    text.push_str(line)
}

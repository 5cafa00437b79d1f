//! The commands of the program: what each reads, and its options as rows of a table.
use clap::builder::ValueParser;
use clap::{Arg, ArgAction, Command, value_parser};
use std::alloc::{AllocError, Global};

// A help that is longer begins on a line of its own, and so do those beside it.
const LONG: usize = 240;

/// An option of a command.
#[derive(Clone, Copy)]
pub struct Row {
    /// Its name, after two hyphens.
    pub name: &'static str,
    /// What it takes.
    pub takes: Takes,
    /// The options that it excludes.
    pub excludes: &'static [&'static str],
    /// What the help says of it.
    pub help: &'static str,
}

/// What an option takes. The first text is what the help calls it.
#[derive(Clone, Copy)]
pub enum Takes {
    /// Nothing.
    Nothing,
    /// A text.
    Text(&'static str),
    /// A text, and one more each time that the option is given again.
    Texts(&'static str),
    /// A whole number from the first to the second.
    Number(&'static str, u64, u64),
    /// The same, or this one where the option is not given.
    NumberOr(&'static str, u64, u64, &'static [&'static str]),
    /// A whole number of 32 bits, or this one where the option is not given.
    WordOr(&'static str, &'static [&'static str]),
}

impl Takes {
    // What the help calls a value.
    fn value(self) -> &'static str {
        match self {
            Takes::Nothing => "",
            Takes::Text(value)
            | Takes::Texts(value)
            | Takes::Number(value, _, _)
            | Takes::NumberOr(value, _, _, _)
            | Takes::WordOr(value, _) => value,
        }
    }

    fn action(self) -> ArgAction {
        match self {
            Takes::Nothing => ArgAction::SetTrue,
            Takes::Texts(_) => ArgAction::Append,
            _ => ArgAction::Set,
        }
    }

    fn parser<'a>(self) -> ValueParser<'a> {
        match self {
            Takes::Nothing => ValueParser::Bool,
            Takes::Text(_) | Takes::Texts(_) => ValueParser::String,
            Takes::Number(_, least, most) | Takes::NumberOr(_, least, most, _) => {
                ValueParser::Unsigned(least, most)
            }
            Takes::WordOr(_, _) => value_parser!(u32),
        }
    }

    // The value where the option is not given, if any.
    fn default(self) -> &'static [&'static str] {
        match self {
            Takes::NumberOr(_, _, _, default) | Takes::WordOr(_, default) => default,
            _ => &[],
        }
    }
}

/// The command of this name, with what the help says of it, its examples, and what the help says of the file that it
/// reads.
pub fn file_command<'a>(
    alloc: Global,
    name: &'a str,
    about: &'a str,
    examples: &'a str,
    file: &'a str,
) -> Result<Command<'a>, AllocError> {
    let file = Arg::new(alloc, "file")
        .value_name("FILE")
        .default_value("-")
        .help(file);
    Command::new(alloc, name)
        .about(about)
        .after_help(examples)
        .arg(file)
}

/// The command with these options.
pub fn with_options<'a>(
    alloc: Global,
    command: Command<'a>,
    rows: &[Row],
) -> Result<Command<'a>, AllocError> {
    let mut command = command;
    for row in rows {
        command = with_option(command, option(alloc, row))?;
    }
    Ok(command)
}

/// The command with this option.
pub fn with_option<'a>(
    command: Command<'a>,
    option: Result<Arg<'a>, AllocError>,
) -> Result<Command<'a>, AllocError> {
    command.arg(option?)
}

fn option<'a>(alloc: Global, row: &Row) -> Result<Arg<'a>, AllocError> {
    Arg::new(alloc, row.name)
        .long(row.name)
        .value_name(row.takes.value())
        .action(row.takes.action())
        .value_parser(row.takes.parser())
        .default_values(row.takes.default())
        .help(row.help)
        .next_line_help(row.help.len() > LONG)
        .conflicts_with_all(row.excludes)
}

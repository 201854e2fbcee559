//! The folders of rows, and what is in them.

use crate::row::Row;
use crate::row_error::RowError;
use crate::written::bytes_of;
use std::alloc::Global;
use std::rt::Files;
use std::{fs, io};

/// What a file of a row is, by its extension.
#[derive(Clone, Copy, PartialEq, Eq)]
pub enum FileKind {
    /// `.go`: a program.
    Text,
    /// `.gen`: a program as it is written.
    Generated,
    /// `.texts`: a table of programs.
    Table,
    /// `.words`: a table of command lines.
    Words,
    /// `.row`: how a program is run, and how that ends.
    Row,
    /// `.out`: what its run writes.
    Output,
    /// `.trace`: the events of its run.
    Trace,
    /// `.pauses`: the plan of pauses by which it is run.
    Pauses,
    /// What is made of it.
    Made(Made),
}

/// What is made of a program.
#[derive(Clone, Copy, PartialEq, Eq)]
pub enum Made {
    /// `.svg`: the picture of its run, as a drawing.
    Drawing,
    /// `.explained`: what `--explain` says of it.
    Explanation,
    /// `.list`: the listing of its code.
    Listing,
    /// `.spans`: the spans of its tree's nodes.
    Spans,
    /// `.tokens`: its tokens.
    Tokens,
    /// `.json`: the picture of its run in the trace event format.
    TraceEvents,
}

impl FileKind {
    /// The kind of the files with this extension.
    fn of(extension: &str) -> Option<FileKind> {
        match extension {
            "go" => Some(FileKind::Text),
            "gen" => Some(FileKind::Generated),
            "texts" => Some(FileKind::Table),
            "words" => Some(FileKind::Words),
            "row" => Some(FileKind::Row),
            "out" => Some(FileKind::Output),
            "pauses" => Some(FileKind::Pauses),
            "svg" => Some(FileKind::Made(Made::Drawing)),
            "explained" => Some(FileKind::Made(Made::Explanation)),
            "list" => Some(FileKind::Made(Made::Listing)),
            "spans" => Some(FileKind::Made(Made::Spans)),
            "tokens" => Some(FileKind::Made(Made::Tokens)),
            "json" => Some(FileKind::Made(Made::TraceEvents)),
            "trace" => Some(FileKind::Trace),
            _ => None,
        }
    }

    /// Whether each line of such a file is checked for itself.
    pub fn has_lines(self) -> bool {
        matches!(self, FileKind::Table | FileKind::Words)
    }

    /// Whether such a file says something of the program next to it.
    fn tells(self) -> bool {
        matches!(
            self,
            FileKind::Row | FileKind::Output | FileKind::Trace | FileKind::Made(_)
        )
    }
}

/// A file of a folder: `TEXT.EXTENSION`, or `TEXT.CASE.EXTENSION` if a program has several rows.
#[derive(Clone, Copy)]
pub struct RowFile<'a> {
    folder: &'a str,
    /// The name without its extension.
    stem: &'a str,
    extension: &'a str,
    pub kind: FileKind,
}

impl<'a> RowFile<'a> {
    /// The file of this name, if rows have such files.
    pub fn new(folder: &'a str, name: &'a str) -> Option<RowFile<'a>> {
        let (stem, extension) = name.rsplit_once('.')?;
        let kind = FileKind::of(extension)?;
        Some(RowFile {
            folder,
            stem,
            extension,
            kind,
        })
    }

    /// The name of its program.
    pub fn text_name(&self) -> &'a str {
        match self.stem.split_once('.') {
            Some((text, _)) => text,
            None => self.stem,
        }
    }

    /// Whether one of these files of its folder says something of this program.
    pub fn is_told(&self, names: &[String]) -> bool {
        names.iter().any(|name| match RowFile::new(self.folder, name.as_str()) {
            Some(other) => other.kind.tells() && other.text_name() == self.stem,
            None => false,
        })
    }

    /// Its program.
    pub fn text<R: Files + AllocGlobal>(&self, rt: &R) -> Result<Vec<u8>, RowError> {
        if let Some(text) = self.read(rt, self.text_name(), "go")? {
            return Ok(text);
        }
        match self.read(rt, self.text_name(), "gen")? {
            Some(written) => generated(rt.alloc(), written),
            None => Err(RowError::NoText),
        }
    }

    /// The file of the same name in the folder, but with this extension.
    pub fn beside<R: Files + AllocGlobal>(
        &self,
        rt: &R,
        extension: &str,
    ) -> Result<Option<Vec<u8>>, RowError> {
        self.read(rt, self.stem, extension)
    }

    /// The file itself.
    pub fn bytes<R: Files + AllocGlobal>(&self, rt: &R) -> Result<Vec<u8>, RowError> {
        match self.read(rt, self.stem, self.extension)? {
            Some(bytes) => Ok(bytes),
            None => Err(RowError::Stranger),
        }
    }

    /// What is expected of its runs.
    pub fn row<R: Files + AllocGlobal>(&self, rt: &R) -> Result<Row, RowError> {
        match self.beside(rt, "row")? {
            Some(lines) => Row::parse(rt.alloc(), utf8(lines)?.as_str()),
            None => Ok(Row::new(rt.alloc())?),
        }
    }

    /// A file of its folder, if there is one.
    fn read<R: Files + AllocGlobal>(
        &self,
        rt: &R,
        stem: &str,
        extension: &str,
    ) -> Result<Option<Vec<u8>>, RowError> {
        let folder = self.folder;
        let path = format!(in rt.alloc(); "{folder}/{stem}.{extension}")?;
        match fs::read(rt, path.as_str()) {
            Ok(bytes) => Ok(Some(bytes)),
            Err(error) if error.kind() == io::ErrorKind::NotFound => Ok(None),
            Err(error) => Err(RowError::Io(error)),
        }
    }
}

/// The program that a `.gen` file stands for: its line breaks are ignored.
fn generated(alloc: Global, written: Vec<u8>) -> Result<Vec<u8>, RowError> {
    let mut text = Vec::new(alloc);
    for line in utf8(written)?.lines() {
        text.extend_from_slice(bytes_of(alloc, line)?.as_slice())?;
    }
    Ok(text)
}

/// The text of a file other than a program.
pub fn utf8(bytes: Vec<u8>) -> Result<String, RowError> {
    String::from_utf8(bytes).map_err(|_| RowError::NotUtf8)
}

/// The names of what is in a folder, sorted.
pub fn names<R: Files + AllocGlobal + Clone + Drop>(
    rt: &R,
    folder: &str,
) -> io::Result<Vec<String>> {
    let alloc = rt.alloc();
    let mut names = Vec::new(alloc);
    for entry in fs::read_dir(rt, folder)? {
        let entry = entry?;
        names.push(entry.file_name().to_string(alloc)?)?;
    }
    names.sort()?;
    Ok(names)
}

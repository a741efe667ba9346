// The journal's text and the unit files that it names, all read before the first call is made.
use crate::failure::Failure;
use crate::journal::{Entry, read_line};
use lexemes::location::line_of;
use std::collections::BTreeMap;
use std::fs;
use std::io::Read;
use std::path::Path;

// A journal by its name in messages, and the folder that its unit files are named from.
#[derive(Drop)]
pub struct Source {
    name: String,
    folder: String,
    text: String,
}

// One call of the journal: its line as written, the line's number, and the call.
#[derive(Clone, Copy)]
pub struct Line<'a> {
    pub text: &'a str,
    number: usize,
    pub entry: Entry<'a>,
}

const STANDARD_INPUT: &str = "standard input";

fn bytes_of(rt: &HostRuntime, journal: Option<&str>) -> Result<Vec<u8>, Failure> {
    let heap = rt.alloc();
    let read = match journal {
        Some(path) => fs::read(rt, path),
        None => {
            let mut bytes = Vec::new(heap);
            rt.stdin().read_to_end(&mut bytes).map(|_| bytes)
        }
    };
    read.try_map_err(|error| Failure::unreadable(heap, journal.unwrap_or(STANDARD_INPUT), error))
}

fn folder_of(path: &str) -> &str {
    Path::new(path).parent().map_or("", Path::as_str)
}

impl Source {
    // The journal at a path, or on standard input.
    pub fn read(rt: &HostRuntime, journal: Option<&str>) -> Result<Source, Failure> {
        let heap = rt.alloc();
        let bytes = bytes_of(rt, journal)?;
        let name = journal.unwrap_or(STANDARD_INPUT);
        let text = std::str::from_utf8(&bytes).try_map_err(|error| {
            let line = line_of(&bytes, error.valid_up_to());
            Failure::at_line(heap, name, line, "is not UTF-8 text")
        })?;
        Ok(Source {
            name: String::from_str(heap, name)?,
            folder: String::from_str(heap, folder_of(journal.unwrap_or("")))?,
            text: String::from_str(heap, text)?,
        })
    }

    // The journal's calls, in order.
    pub fn lines(&self, rt: &HostRuntime) -> Result<Vec<Line<'_>>, Failure> {
        let heap = rt.alloc();
        let mut lines = Vec::new(heap);
        for (number, text) in (1..).zip(self.text.as_str().lines()) {
            let read = read_line(text).try_map_err(|bad| Failure::at_line(
                heap,
                self.name.as_str(),
                number,
                bad,
            ))?;
            if let Some(entry) = read {
                lines.push(Line {
                    text,
                    number,
                    entry,
                })?;
            }
        }
        Ok(lines)
    }

    fn unit_text(&self, rt: &HostRuntime, file: &str, line: usize) -> Result<Vec<u8>, Failure> {
        let heap = rt.alloc();
        let path = Path::new(self.folder.as_str()).join(heap, file)?;
        fs::read(rt, path.as_path()).try_map_err(|error| {
            let what = format!(in heap; "cannot read {file}: {error}")?;
            Failure::at_line(heap, self.name.as_str(), line, what)
        })
    }

    // The text of each unit file that the lines name. Each file is read once.
    pub fn unit_texts(
        &self,
        rt: &HostRuntime,
        lines: &[Line<'_>],
    ) -> Result<BTreeMap<String, Vec<u8>>, Failure> {
        let heap = rt.alloc();
        let mut texts = BTreeMap::new(heap);
        for line in lines {
            if let Entry::Load { unit: _, file } = line.entry {
                if !texts.contains_key(file) {
                    let text = self.unit_text(rt, file, line.number)?;
                    texts.insert(String::from_str(heap, file)?, text)?;
                }
            }
        }
        Ok(texts)
    }
}

// Scenes: files, a plan, calls that fail, and runs.
use crate::answers::{FileBytes, answer};
use crate::runs::{NO_COUNTS, Range, run};
use crate::shown::{number_of, put_seen};
use floppy_jobs::is_verb;
use memory_files::{MemShelf, MemSink};
use std::alloc::Global;
use std::env::VarError;
use test_files::{Draft, LineWords, Wrong, follow, put_file, words_in};

/// A name that is watched, and the file that has it, if one does.
#[derive(Drop)]
struct Kept {
    name: String,
    bytes: Option<Draft>,
}

#[derive(Drop)]
struct Scene {
    alloc: Global,
    /// Whether the next lines are the text of a file.
    is_text: bool,
    files: Vec<Kept>,
    /// What the environment variable gives that names the plan of the runs.
    plan: Result<String, VarError>,
    shelf_fails: Vec<u64>,
    sink_fails: Vec<u64>,
    /// The counts that the runs print.
    counts: Vec<String>,
    range: Range,
}

/// Plays the scenes of a text. What is printed goes to `out`, even if a line isn't understood.
pub(crate) fn play(alloc: Global, text: &str, out: &mut Draft) -> Result<(), Wrong> {
    let mut scene = Scene::new(alloc);
    let mut number = 0u64;
    for line in text.lines() {
        number = number.saturating_add(1);
        if let Err(wrong) = scene.line(line, out) {
            out.text("test_scenes: line ");
            out.number(number);
            out.line(" not understood");
            return Err(wrong);
        }
    }
    Ok(())
}

impl Scene {
    fn new(alloc: Global) -> Scene {
        Scene {
            alloc,
            is_text: false,
            files: Vec::new(alloc),
            plan: Err(VarError::NotPresent),
            shelf_fails: Vec::new(alloc),
            sink_fails: Vec::new(alloc),
            counts: Vec::new(alloc),
            range: Range {
                start: 0,
                length: 0,
            },
        }
    }

    fn line(&mut self, line: &str, out: &mut Draft) -> Result<(), Wrong> {
        if self.is_text {
            self.text_line(line)
        } else {
            self.words(line, out)?;
            out.whole()
        }
    }

    /// Takes a line of a file's text, or the line `.` that ends it.
    fn text_line(&mut self, line: &str) -> Result<(), Wrong> {
        if line == "." {
            self.is_text = false;
        } else {
            self.last_made()?.line(line);
        }
        Ok(())
    }

    fn words(&mut self, line: &str, out: &mut Draft) -> Result<(), Wrong> {
        let words = words_in(self.alloc, line)?;
        match words.as_slice().split_first() {
            Some((verb, fields)) => self.verb(line, verb, LineWords::of(fields), out),
            None => Ok(()),
        }
    }

    /// Does a line that prints.
    fn verb(
        &mut self,
        line: &str,
        verb: &str,
        fields: LineWords,
        out: &mut Draft,
    ) -> Result<(), Wrong> {
        let word = verb.as_bytes();
        if is_verb(word, "scene") {
            *self = Scene::new(self.alloc);
            out.line(line);
            Ok(())
        } else if is_verb(word, "run") {
            out.line(line);
            self.run(fields, out)
        } else if is_verb(word, "of") {
            out.line(line);
            self.ask(fields, out)
        } else if is_verb(word, "sum") {
            self.sum(out)
        } else {
            let mut fields = fields;
            self.setting(verb, &mut fields)?;
            fields.end()
        }
    }

    /// Does a line that prints nothing.
    fn setting(&mut self, verb: &str, fields: &mut LineWords) -> Result<(), Wrong> {
        let word = verb.as_bytes();
        if is_verb(word, "file") {
            self.file(fields.word(), Some(Draft::new(self.alloc)))
        } else if is_verb(word, "watch") {
            self.file(fields.word(), None)
        } else if is_verb(word, "text") {
            self.is_text = true;
            Ok(())
        } else if is_verb(word, "plan") {
            self.plan(fields)
        } else if is_verb(word, "noname") {
            self.plan = Err(VarError::NotUnicode);
            Ok(())
        } else if is_verb(word, "shelf") {
            self.shelf_fails.push(fields.count() as u64)?;
            Ok(())
        } else if is_verb(word, "sink") {
            self.sink_fails.push(fields.count() as u64)?;
            Ok(())
        } else if is_verb(word, "counts") {
            self.count(fields)
        } else if is_verb(word, "ram") {
            self.range = range(fields);
            Ok(())
        } else {
            self.recipe(verb, fields)
        }
    }

    /// Does a line of a recipe.
    fn recipe(&mut self, verb: &str, fields: &mut LineWords) -> Result<(), Wrong> {
        let words = fields.words();
        follow(self.last_made()?, verb, LineWords::of(words))
    }

    /// Watches a name, with a file of these bytes or with none.
    fn file(&mut self, name: &str, bytes: Option<Draft>) -> Result<(), Wrong> {
        self.files.retain(|file| file.name.as_str() != name);
        let name = String::from_str(self.alloc, name)?;
        self.files.push(Kept { name, bytes })?;
        Ok(())
    }

    /// `plan NAME`: the runs after this line have the plan of this name. `plan`: they have none.
    fn plan(&mut self, fields: &mut LineWords) -> Result<(), Wrong> {
        self.plan = match fields.words() {
            [] => Err(VarError::NotPresent),
            [name] => Ok(String::from_str(self.alloc, name)?),
            _ => return Err(Wrong::Line),
        };
        Ok(())
    }

    /// `counts NAME..`: the runs after this line print these counts.
    fn count(&mut self, fields: &mut LineWords) -> Result<(), Wrong> {
        let mut counts = Vec::new(self.alloc);
        for name in fields.words() {
            if number_of(NO_COUNTS, name).is_none() {
                return Err(Wrong::Line);
            }
            counts.push(String::from_str(self.alloc, name)?)?;
        }
        self.counts = counts;
        Ok(())
    }

    /// Watches a name, if it isn't watched yet.
    fn watch(&mut self, name: &str) -> Result<(), Wrong> {
        if !self.files.iter().any(|file| file.name.as_str() == name) {
            let name = String::from_str(self.alloc, name)?;
            self.files.push(Kept { name, bytes: None })?;
        }
        Ok(())
    }

    /// The bytes of the last file, which is still being made.
    fn last_made(&mut self) -> Result<&mut Draft, Wrong> {
        match self.files.last_mut() {
            Some(
                Kept {
                    bytes: Some(bytes),
                    ..
                },
            ) => Ok(bytes),
            _ => Err(Wrong::Line),
        }
    }

    /// Asks a function about the bytes of the last file.
    fn ask(&mut self, fields: LineWords, out: &mut Draft) -> Result<(), Wrong> {
        let alloc = self.alloc;
        let made = self.last_made()?;
        made.whole()?;
        let asked = FileBytes {
            alloc,
            bytes: made.bytes(),
        };
        let mut fields = fields;
        answer(asked, &mut fields, out)?;
        fields.end()
    }

    /// Prints the sum of the last file.
    fn sum(&self, out: &mut Draft) -> Result<(), Wrong> {
        match self.files.last() {
            Some(file) => file.put(out),
            None => return Err(Wrong::Line),
        }
        Ok(())
    }

    fn shelf(&self) -> Result<MemShelf, Wrong> {
        let mut shelf = MemShelf::new(self.alloc, self.shelf_fails.to_vec(self.alloc)?);
        for file in &self.files {
            if let Some(bytes) = &file.bytes {
                bytes.whole()?;
                shelf.put_file(file.name.as_str(), bytes.bytes())?;
            }
        }
        Ok(shelf)
    }

    /// What the environment variable gives to a run.
    fn variable(&self) -> Result<Result<String, VarError>, Wrong> {
        match &self.plan {
            Ok(name) => Ok(Ok(String::from_str(self.alloc, name.as_str())?)),
            Err(cause) => Ok(Err(cause.clone()?)),
        }
    }

    /// The words of a run, each of which is watched.
    fn words_of(&mut self, fields: LineWords) -> Result<Vec<String>, Wrong> {
        let mut fields = fields;
        let mut words = Vec::new(self.alloc);
        for word in fields.words() {
            self.watch(word)?;
            words.push(String::from_str(self.alloc, word)?)?;
        }
        Ok(words)
    }

    /// Runs the program, and prints its report, what is seen after it, and each watched file that changed.
    fn run(&mut self, fields: LineWords, out: &mut Draft) -> Result<(), Wrong> {
        let words = self.words_of(fields)?;
        let mut shelf = self.shelf()?;
        let mut sink = MemSink::new(self.alloc, self.sink_fails.to_vec(self.alloc)?);
        let plan = self.variable()?;
        let seen = run(self.alloc, plan, &words, &mut shelf, &mut sink, self.range)?;
        out.put(sink.bytes());
        put_seen(&seen, &self.counts, out);
        for file in self.files.iter_mut() {
            file.renew(&shelf, out);
        }
        Ok(())
    }
}

impl Kept {
    fn put(&self, out: &mut Draft) {
        let bytes = match &self.bytes {
            Some(bytes) => Some(bytes.bytes()),
            None => None,
        };
        put_file(out, self.name.as_str(), bytes);
    }

    /// Takes the file as the file store has it, and prints its sum if it changed.
    fn renew(&mut self, shelf: &MemShelf, out: &mut Draft) {
        let Some(new) = shelf.file(self.name.as_str()) else {
            return;
        };
        let same = match &self.bytes {
            Some(old) => old.bytes() == new,
            None => false,
        };
        if !same {
            let mut bytes = Draft::new(out.alloc());
            bytes.put(new);
            self.bytes = Some(bytes);
            put_file(out, self.name.as_str(), Some(new));
        }
    }
}

/// `ram ADDRESS LENGTH`: the part of memory that the later runs print
fn range(fields: &mut LineWords) -> Range {
    Range {
        start: fields.hex(1, 5),
        length: fields.long(),
    }
}

// A run of commands over memory of its own.
ghost use Rattle.std.specs.Prelude.{◌≡◌, length, OnOk, OnErr, Some};
ghost use Rattle.columns.specs.Levels.{leaves_of};
ghost use Rattle.script.specs.declared.session.Answer.TheVariants.{Finished};
ghost use Rattle.script.specs.declared.session.Selected.TheVariants.{All as AllLeaves};
ghost use Rattle.script.specs.declared.session.Stage.TheVariants.{Drafting};

use crate::command::{Command, Line, Select};
use crate::failure::Failure;
use crate::hints::Hints;
use crate::show::{ColumnRow, Row, Text};
use crate::words::{Words, number};
use columns::{Column, PathRecord, count_leaves, list};
use schema::{Annotation, Draft, Element, Leaf, Refusal, Repetition, Schema};
use selection::flag;
use std::alloc::{AllocError, Global};
use tree::Row as _;

// The bytes of all names of a schema.
const NAME_BYTES: usize = 65536;

// The longest path times as many leaves as a schema may have.
const PATH_NUMBERS: usize = 64 * Element::MOST;

// How far the schema is.
#[derive(Drop)]
enum Stage {
    Drafting(Draft),
    Finished(Schema),
}

// Which leaves are selected: all, those flagged, or those below flagged children of the root.
#[derive(Clone, Copy)]
enum Selected {
    All,
    Leaves,
    Roots,
}

// What a command did.
#[derive(Clone, Copy)]
pub enum Answer {
    Begun,
    Spelled { element: usize, depth: u8 },
    Closed { open: u8 },
    Finished { elements: usize, leaves: usize },
    Listed { columns: usize },
    Hinted { row: usize },
    Hints { rows: usize },
    SelectedAll,
    Selected { flagged: usize },
}

// The memory that is lent to each call, and the schema that lies in it.
#[derive(Drop)]
pub struct Session {
    elements: Vec<Element>,
    names: Vec<u8>,
    // none before the first draft
    stage: Option<Stage>,
    columns: Vec<Column>,
    paths: Vec<usize>,
    walked: PathRecord,
    // kept for the conversion, which no command does yet
    selected: Selected,
    flags: Vec<bool>,
    hints: Hints,
}

// What is told of a finished schema.
fn finished(rows: &[Element]) -> Answer
    ensures { result ≡ Finished (length rows.now) (length (leaves_of rows.now)) }
{
    Answer::Finished {
        elements: rows.len(),
        leaves: count_leaves(rows),
    }
}

impl Session {
    pub fn new(heap: Global) -> Result<Session, AllocError> {
        Ok(Session {
            elements: vec![in heap; Element::EMPTY; Element::MOST]?,
            names: vec![in heap; 0; NAME_BYTES]?,
            stage: None,
            columns: vec![in heap; Column::EMPTY; Element::MOST]?,
            paths: vec![in heap; 0; PATH_NUMBERS]?,
            walked: PathRecord::EMPTY,
            selected: Selected::All,
            flags: vec![in heap; false; Element::MOST]?,
            hints: Hints::new(heap),
        })
    }

    // Runs one line, and gives the text to print.
    pub fn answer(&mut self, heap: Global, line: &[u8]) -> Result<String, AllocError> {
        match Line::parse(line) {
            Line::Blank => Ok(String::new(heap)),
            Line::Rule => String::from_str(heap, "---\n"),
            Line::Command(command) => {
                let outcome = self.run(command);
                self.reply(heap, line, outcome)
            }
            Line::Other => self.reply(heap, line, Err(Failure::NotUnderstood)),
        }
    }

    // Runs one command.
    pub fn run(&mut self, command: Command<'_>) -> Result<Answer, Failure> {
        match command {
            Command::Begin { field_id, name } => self.begin(name, field_id),
            Command::Open {
                repetition,
                annotation,
                field_id,
                name,
            } => self.spell(|draft, elements, names| {
                draft.open(elements, names, name, repetition, annotation, field_id)
            }),
            Command::Add {
                repetition,
                leaf,
                field_id,
                name,
            } => self.spell(|draft, elements, names| {
                draft.add(elements, names, name, repetition, leaf, field_id)
            }),
            Command::Close => self.close(),
            Command::Finish => self.finish(),
            Command::List => self.list(),
            Command::Hint(line) => Ok(Answer::Hinted {
                row: self.hints.push(line)?,
            }),
            Command::Hints => self.check_hints(),
            Command::Select(Select::All) => Ok(self.select_all()),
            Command::Select(Select::Leaves(numbers)) => Ok(self.select(Selected::Leaves, numbers)),
            Command::Select(Select::Roots(numbers)) => Ok(self.select(Selected::Roots, numbers)),
            Command::Planned => Err(Failure::NotThereYet),
        }
    }

    // Accepted, it selects all leaves again; refused, it leaves the selection.
    fn begin(&mut self, name: &[u8], field_id: Option<i32>) -> Result<Answer, Failure>
        ensures selects { OnOk result (self.new.selected ≡ AllLeaves) }
        ensures leaves { OnErr result (self.new.selected ≡ self.old.selected) }
    {
        let draft = Draft::begin(&mut self.elements, &mut self.names, name, field_id)?;
        self.stage = Some(Stage::Drafting(draft));
        self.hints.clear();
        self.select_all();
        Ok(Answer::Begun)
    }

    // Runs a call that spells an element, and tells its number and depth.
    fn spell<F>(&mut self, call: F) -> Result<Answer, Failure>
    where
        F: FnOnce(&mut Draft, &mut [Element], &mut [u8]) -> Result<usize, Refusal>,
        requires { F.IsAlwaysCallable call }
    {
        let Some(Stage::Drafting(draft)) = &mut self.stage else {
            return Err(Failure::NoDraft);
        };
        let depth = draft.open_groups();
        let element = call(draft, &mut self.elements, &mut self.names)?;
        Ok(Answer::Spelled { element, depth })
    }

    fn close(&mut self) -> Result<Answer, Failure> {
        let Some(Stage::Drafting(draft)) = &mut self.stage else {
            return Err(Failure::NoDraft);
        };
        draft.close()?;
        Ok(Answer::Closed {
            open: draft.open_groups(),
        })
    }

    fn finish(&mut self) -> Result<Answer, Failure>
        ensures kept { OnErr result (self.new.stage ≡ self.old.stage) }
    {
        match self.stage.take() {
            Some(Stage::Drafting(draft)) => self.finish_draft(draft),
            other => {
                self.stage = other;
                Err(Failure::NoDraft)
            }
        }
    }

    // Refused, the draft is put back.
    fn finish_draft(&mut self, draft: Draft) -> Result<Answer, Failure>
        ensures kept { OnErr result (self.new.stage ≡ Some (Drafting draft)) }
    {
        match draft.finish(&mut self.elements, &self.names) {
            Ok(schema) => {
                self.stage = Some(Stage::Finished(schema));
                Ok(finished(self.rows()))
            }
            Err((draft, refusal)) => {
                self.stage = Some(Stage::Drafting(draft));
                Err(refusal.into())
            }
        }
    }

    fn list(&mut self) -> Result<Answer, Failure> {
        let Some(Stage::Finished(schema)) = &self.stage else {
            return Err(Failure::NoSchema);
        };
        let columns = list(
            schema,
            &self.elements,
            &self.names,
            &mut self.columns,
            &mut self.paths,
            &mut self.walked,
        )?;
        Ok(Answer::Listed { columns })
    }

    fn check_hints(&mut self) -> Result<Answer, Failure> {
        self.hints.check()?;
        Ok(Answer::Hints {
            rows: self.hints.len(),
        })
    }

    fn select_all(&mut self) -> Answer
        ensures selects { self.new.selected ≡ AllLeaves }
    {
        self.selected = Selected::All;
        Answer::SelectedAll
    }

    // Flags the numbers of a line, which are those of leaves or of the root's children; a number outside the flags is
    // refused, and the others are flagged all the same.
    fn select(&mut self, selected: Selected, numbers: &[u8]) -> Answer
        ensures selects { self.new.selected ≡ selected }
    {
        self.selected = selected;
        self.flags.fill(false);
        let flagged = Words::new(numbers)
            .filter_map(number)
            .filter(|number| flag(&mut self.flags, *number).is_ok())
            .count();
        Answer::Selected { flagged }
    }

    // The rows of the finished schema.
    fn rows(&self) -> &[Element] {
        match &self.stage {
            Some(Stage::Finished(schema)) => {
                self.elements.get(0..schema.elements()).unwrap_or(&[])
            }
            _ => &[],
        }
    }

    // The line as read and its answer, and the table that follows it.
    fn reply(
        &self,
        heap: Global,
        line: &[u8],
        outcome: Result<Answer, Failure>,
    ) -> Result<String, AllocError> {
        let answer = match outcome {
            Ok(answer) => answer,
            Err(failure) => return format!(in heap; "{}: {failure}\n", Text(line)),
        };
        let mut text = format!(in heap; "{}: {answer}\n", Text(line))?;
        match answer {
            Answer::Finished { .. } => self.push_rows(heap, &mut text)?,
            Answer::Listed { columns } => self.push_columns(heap, &mut text, columns)?,
            Answer::Selected { .. } => self.push_flags(heap, &mut text, line)?,
            Answer::Hints { .. } => self.hints.push_rows(heap, &mut text)?,
            _ => {}
        }
        Ok(text)
    }

    fn push_columns(
        &self,
        heap: Global,
        text: &mut String,
        count: usize,
    ) -> Result<(), AllocError> {
        for (number, column) in self.columns.iter().take(count).enumerate() {
            let start = column.path.start;
            let end = start.saturating_add(column.path.length);
            let row = ColumnRow {
                number,
                column,
                path: self.paths.get(start..end).unwrap_or(&[]),
            };
            text.push_str(format!(in heap; "  {row}\n")?.as_str())?;
        }
        Ok(())
    }

    // What came of each number of a `select`.
    fn push_flags(&self, heap: Global, text: &mut String, line: &[u8]) -> Result<(), AllocError> {
        for number in Words::new(line).filter_map(number::<usize>) {
            let row = match self.flags.get(number) {
                Some(true) => format!(in heap; "  flag {number}\n")?,
                _ => format!(in heap; "  flag {number}: {}\n", Refusal::FlagOutside)?,
            };
            text.push_str(row.as_str())?;
        }
        Ok(())
    }

    fn push_rows(&self, heap: Global, text: &mut String) -> Result<(), AllocError> {
        for (number, element) in self.rows().iter().enumerate() {
            let row = Row {
                number,
                element,
                name: element.name.read(&self.names).unwrap_or(b""),
            };
            text.push_str(format!(in heap; "  {row}\n")?.as_str())?;
        }
        Ok(())
    }
}

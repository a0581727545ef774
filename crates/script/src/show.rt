// The text of what a script prints.
ghost use Rattle.std.specs.Prelude.{◌≡◌};
ghost use Rattle.script.specs.Spelling.{repetition_word, annotation_word, physical_word};

use crate::failure::Failure;
use crate::session::Answer;
use columns::Column;
use schema::{Annotation, Element, Kind, PhysicalType, Repetition};
use std::fmt;

// Bytes as printable text: printable ASCII as it is, any other byte as `\xNN`.
#[derive(Clone, Copy)]
pub struct Text<'a>(pub &'a [u8]);

impl fmt::Display for Text<'_> {
    fn fmt<W: fmt::Write>(&self, f: &mut fmt::Formatter<W>) -> fmt::Result {
        for byte in self.0 {
            match *byte {
                b' '..=b'~' => f.write_char(*byte as char)?,
                other => write!(f, "\\x{other:02x}")?,
            }
        }
        Ok(())
    }
}

impl fmt::Display for Answer {
    fn fmt<W: fmt::Write>(&self, f: &mut fmt::Formatter<W>) -> fmt::Result {
        match *self {
            Answer::Begun => f.write_str("element 0"),
            Answer::Spelled { element, depth } => write!(f, "element {element} depth {depth}"),
            Answer::Closed { open } => write!(f, "{open} open"),
            Answer::Finished { elements, leaves } => write!(
                f,
                "{elements} elements, {leaves} leaves"
            ),
            Answer::Listed { columns } => write!(f, "{columns} columns"),
            Answer::Selected { flagged } => write!(f, "{flagged} flagged"),
            Answer::Hinted { row } => write!(f, "row {row}"),
            Answer::Hints { rows } => write!(f, "{rows} rows"),
            Answer::SelectedAll => f.write_str("all leaves"),
        }
    }
}

impl fmt::Display for Failure {
    fn fmt<W: fmt::Write>(&self, f: &mut fmt::Formatter<W>) -> fmt::Result {
        match *self {
            Failure::Refused(refusal) => write!(f, "{refusal}"),
            Failure::OutOfMemory => f.write_str("out of memory"),
            Failure::NoDraft => f.write_str("no draft"),
            Failure::NoSchema => f.write_str("no schema"),
            Failure::NotThereYet => f.write_str("not there yet"),
            Failure::NotUnderstood => f.write_str("not understood"),
        }
    }
}

// The words of these three types stand here in a match, and in words.rt the other way round: a table for both ways would be
// searched in a loop, where each match proves its clause with no proof file.
fn repetition_word(repetition: Repetition) -> &'static str
    ensures { result.now ≡ repetition_word repetition }
{
    match repetition {
        Repetition::Required => "required",
        Repetition::Optional => "optional",
        Repetition::Repeated => "repeated",
    }
}

fn annotation_word(annotation: Option<Annotation>) -> &'static str
    ensures { result.now ≡ annotation_word annotation }
{
    match annotation {
        None => "none",
        Some(Annotation::List) => "list",
        Some(Annotation::Map) => "map",
        Some(Annotation::MapKeyValue) => "map_key_value",
    }
}

fn physical_word(physical: PhysicalType) -> &'static str
    ensures { result.now ≡ physical_word physical }
{
    match physical {
        PhysicalType::Boolean => "boolean",
        PhysicalType::Int32 => "int32",
        PhysicalType::Int64 => "int64",
        PhysicalType::Int96 => "int96",
        PhysicalType::Float => "float",
        PhysicalType::Double => "double",
        PhysicalType::ByteArray => "byte_array",
        PhysicalType::FixedLenByteArray => "fixed_len_byte_array",
    }
}

// A row of a finished schema's table.
#[derive(Clone, Copy)]
pub struct Row<'a> {
    pub number: usize,
    pub element: &'a Element,
    pub name: &'a [u8],
}

impl fmt::Display for Row<'_> {
    fn fmt<W: fmt::Write>(&self, f: &mut fmt::Formatter<W>) -> fmt::Result {
        write!(
            f,
            "element {} depth={} size={} ",
            self.number, self.element.depth, self.element.size
        )?;
        if let Some(repetition) = self.element.repetition {
            write!(f, "{} ", repetition_word(repetition))?;
        }
        match self.element.kind {
            Kind::Group(annotation) => write!(f, "group {}", annotation_word(annotation))?,
            Kind::Leaf(leaf) => f.write_str(physical_word(leaf.physical))?,
        }
        write!(f, " {}", Text(self.name))
    }
}

// A row of a listing.
#[derive(Clone, Copy)]
pub struct ColumnRow<'a> {
    pub number: usize,
    pub column: &'a Column,
    pub path: &'a [usize],
}

impl fmt::Display for ColumnRow<'_> {
    fn fmt<W: fmt::Write>(&self, f: &mut fmt::Formatter<W>) -> fmt::Result {
        write!(
            f,
            "column {} element={} rep={} def={} ",
            self.number, self.column.element, self.column.max_rep_level, self.column.max_def_level
        )?;
        write!(
            f,
            "repeated_def={} root={} path=",
            self.column.repeated_def_level, self.column.root
        )?;
        for (i, number) in self.path.iter().enumerate() {
            if i > 0 {
                f.write_char('.')?;
            }
            write!(f, "{number}")?;
        }
        Ok(())
    }
}

// How a group is read: found by its annotation and its children.
ghost use Rattle.std.specs.Prelude.{◌≡◌, ℕ, ◌+◌, ◌<◌, List, ◌++◌, codes, length, Ok};
ghost use Rattle.tree.specs.Forest.{Forest};
ghost use Rattle.tree.specs.Forest.Forest.{plant};
ghost use Rattle.schema.specs.Elements.{part};
ghost use Rattle.walk.specs.Forests.{trees};
ghost use Rattle.walk.specs.Labels.{is_optional, is_repeated, or_required};
ghost use Rattle.walk.specs.Reading.{names_element, one_child, list_role, map_role, entries_role, first_is_element};
ghost use Rattle.walk.specs.declared.role.Role.TheVariants.{Listed as ListedRole};
ghost use Rattle.convert.specs.Table.{Stands, WholeElements, Rooted, Reads, element_at, kids};

use schema::{Annotation, Element, Kind, Refusal, Repetition};
use tree::FlatTree;
use walk::Role;

pub(crate) fn is_optional(element: Element) -> bool
    ensures { result ≡ is_optional (or_required element.repetition) }
{
    element.repetition == Some(Repetition::Optional)
}

pub(crate) fn is_repeated(element: Element) -> bool
    ensures { result ≡ is_repeated (or_required element.repetition) }
{
    element.repetition == Some(Repetition::Repeated)
}

// Whether a name is `array`, or that of the group with `_tuple` after it.
fn names_element(group: &[u8], name: &[u8]) -> bool
    ensures { result ≡ names_element group.now name.now }
{
    name == b"array".as_slice()
        || name
            .strip_prefix(group)
            .is_some_and(|rest| rest == b"_tuple".as_slice())
}

fn one_child(annotation: Option<Annotation>, again: bool, by_name: bool) -> bool
    ensures { result ≡ one_child annotation again by_name }
{
    match annotation {
        None => again || by_name,
        Some(Annotation::List) => false,
        Some(Annotation::Map | Annotation::MapKeyValue) => !again && by_name,
    }
}

// An element's place in a table that is a tree as a whole.
#[derive(Clone, Copy)]
pub(crate) struct Node<'a> {
    pub(crate) elements: &'a [Element],
    pub(crate) at: usize,
    ghost whole: { ∥ WholeElements elements.now ∥₁ },
    ghost inside: { at < length elements.now },
}

impl<'a> Node<'a> {
    pub(crate) fn new(elements: &'a [Element], at: usize) -> Node<'a>
        requires { Rooted elements.now at }
        ensures elements { result.elements.now ≡ elements.now }
        ensures at { result.at ≡ at }
    {
        Node { elements, at }
    }

    fn element(self) -> Element
        ensures { result ≡ element_at self.entry.elements.now self.entry.at }
    {
        self.elements[self.at]
    }

    fn is_repeated(self) -> bool
        ensures { result ≡ is_repeated (or_required (element_at self.entry.elements.now self.entry.at).repetition) }
    {
        is_repeated(self.element())
    }

    // The node of the first child.
    fn first_child(self) -> Node<'a>
        requires { self.at + 1 < length self.elements.now }
        ensures elements { result.elements.now ≡ self.entry.elements.now }
        ensures at { result.at ≡ self.entry.at + 1 }
    {
        Node {
            elements: self.elements,
            at: self.at + 1,
        }
    }

    // The node that comes after all that is below this one.
    fn next_sibling(self) -> Node<'a>
        requires { self.at + (element_at self.elements.now self.at).size < length self.elements.now }
        ensures elements { result.elements.now ≡ self.entry.elements.now }
        ensures at { result.at ≡ self.entry.at + (element_at self.entry.elements.now self.entry.at).size }
    {
        Node {
            elements: self.elements,
            at: self.at + self.element().size,
        }
    }

    // How many children the element has.
    pub(crate) fn count_children(self) -> usize
        ensures child { 0 < result → self.entry.at + 1 < length self.entry.elements.now }
        ensures pair { result ≡ 2 → self.entry.at + 1 + (element_at self.entry.elements.now (self.entry.at + 1)).size < length self.entry.elements.now }
        ensures trees { (e : Element) (below next : Forest Element) → Stands self.entry.elements.now self.entry.at (plant e below next) → result ≡ trees below }
    {
        FlatTree::new(self.elements).count_children(self.at)
    }

    // Its role if it is annotated LIST.
    fn list_role(self) -> Result<Role, Refusal>
        ensures { (e : Element) (below next : Forest Element) → Stands self.entry.elements.now self.entry.at (plant e below next) → (text : List ℕ) (k : ℕ) → list_role self.entry.at (or_required e.repetition) (kids text self.entry.at k below) ≡ result }
    {
        if self.count_children() != 1 {
            return Err(Refusal::ListChildren(self.at));
        }
        if !self.first_child().is_repeated() {
            return Err(Refusal::ListChildNotRepeated(self.at));
        }
        if self.is_repeated() {
            return Err(Refusal::ListRepeated(self.at));
        }
        Ok(Role::Listed)
    }

    // The role of the MAP group at `group` whose repeated child it is.
    fn entries_role(self, group: usize) -> Result<Role, Refusal>
        ensures { (e : Element) (below next : Forest Element) → Stands self.entry.elements.now self.entry.at (plant e below next) → (text : List ℕ) (k : ℕ) → entries_role group (kids text self.entry.at k below) ≡ result }
    {
        match self.count_children() {
            1 => Ok(Role::Listed),
            2 => {
                let key = self.first_child();
                if key.is_repeated() || key.next_sibling().is_repeated() {
                    return Err(Refusal::EntryRepeated(group));
                }
                Ok(Role::Mapped)
            }
            _ => Err(Refusal::EntriesChildren(group)),
        }
    }

    // Its role if it is annotated MAP or MAP_KEY_VALUE.
    fn map_role(self) -> Result<Role, Refusal>
        ensures { (e : Element) (below next : Forest Element) → Stands self.entry.elements.now self.entry.at (plant e below next) → (text : List ℕ) (k : ℕ) → map_role self.entry.at (or_required e.repetition) (kids text self.entry.at k below) ≡ result }
    {
        if self.is_repeated() {
            return Err(Refusal::MapRepeated(self.at));
        }
        if self.count_children() != 1 {
            return Err(Refusal::MapChildren(self.at));
        }
        let child = self.first_child();
        if !child.is_repeated() {
            return Err(Refusal::MapChildNotRepeatedGroup(self.at));
        }
        match child.element().kind {
            Kind::Leaf(_) => Err(Refusal::MapChildNotRepeatedGroup(self.at)),
            Kind::Group(_) => child.entries_role(self.at),
        }
    }

    // How it is read by its own annotation.
    pub(crate) fn role(self) -> Result<Role, Refusal>
        ensures { Reads self.entry.elements.now self.entry.at result }
    {
        match self.element().kind {
            Kind::Leaf(_) | Kind::Group(None) => Ok(Role::Own),
            Kind::Group(Some(Annotation::List)) => self.list_role(),
            Kind::Group(Some(Annotation::Map | Annotation::MapKeyValue)) => self.map_role(),
        }
    }

    // Whether the repeated child of a group that is read as a list is the list's element itself.
    pub(crate) fn is_element(self, names: &[u8]) -> bool
        requires { Reads self.elements.now self.at (Ok ListedRole) }
        ensures { (e : Element) (below next : Forest Element) → Stands self.entry.elements.now self.entry.at (plant e below next) → (k : ℕ) → first_is_element (part names.now e.name) (kids names.now self.entry.at k below) ≡ result }
    {
        let child = self.first_child();
        let inner = child.element();
        match inner.kind {
            Kind::Leaf(_) => true,
            Kind::Group(annotation) => {
                if child.count_children() != 1 {
                    return true;
                }
                let again = child.first_child().is_repeated();
                let group = self.element().name.bytes_in(names);
                let name = inner.name.bytes_in(names);
                one_child(annotation, again, names_element(group, name))
            }
        }
    }
}

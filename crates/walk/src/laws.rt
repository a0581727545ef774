// The laws of the walk. Each function does nothing: its contract is a theorem. A law with no tactic line has its answer in proofs/laws, since
// the check does not close it when it is only given the lemma.
ghost use Rattle.walk.specs.Laws.{NumberedInOrder, LeafRows, DefinitionLevelsOnce, RepetitionLevelsOnce, TwoRowsAnElement, LevelsBounded, YieldsRows, HasShape, HintsKeepShape, WalkLeveled, RefusedFirst, WalkedInOrder, HintsReach, FieldsTold, ListsAsPublished, PublishedListsTold, MapsAsPublished, RowsLieFlat, FlatLevels, LeavesAsListed, SameSchema, SameSelection};
ghost use Rattle.walk.specs.Worked.{Worked};

// The table of worked schemas comes out as it is written down.
#[tactic(auto, unfolding(crate::specs::Reading::reading, crate::specs::Handing::hinting, crate::specs::Faults::refusals, crate::specs::Shape::shape))]
pub fn worked_schemas()
    ensures law { Worked }
{}

// Elements and leaves are numbered in schema order, chosen or not.
pub fn numbered_in_order()
    ensures law { NumberedInOrder }
{}

// The leaf rows, in order, are those of the leaves that are chosen and below no half-taken map, with their numbers and highest levels.
#[tactic(auto, using(crate::proofs::Main::leaf_rows))]
pub fn leaf_rows()
    ensures law { LeafRows }
{}

// On the way to a leaf row each definition level below its highest is read by exactly one row, as absent where the level's element is optional
// and as no items where it is repeated.
#[tactic(auto, using(crate::proofs::Main::definition_levels_once))]
pub fn definition_levels_once()
    ensures law { DefinitionLevelsOnce }
{}

// On the way to a leaf row each repetition level is opened by exactly one row, the list or map row of that repeated element.
#[tactic(auto, using(crate::proofs::Main::repetition_levels_once))]
pub fn repetition_levels_once()
    ensures law { RepetitionLevelsOnce }
{}

// A schema gives at most two rows for each element.
#[tactic(auto, using(crate::proofs::Main::two_rows_an_element))]
pub fn two_rows_an_element()
    ensures law { TwoRowsAnElement }
{}

// Levels keep R ≤ D ≤ 64 in every row.
#[tactic(auto, using(crate::proofs::Bounds::levels_bounded))]
pub fn levels_bounded()
    ensures law { LevelsBounded }
{}

// There are rows exactly where something yields.
#[tactic(auto, using(crate::proofs::Tidy::yields_rows))]
pub fn yields_rows()
    ensures law { YieldsRows }
{}

// The rows of an accepted walk are the shape's, Arrow types and metadata aside.
#[tactic(auto, using(crate::proofs::Hinted::has_shape))]
pub fn has_shape()
    ensures law { HasShape }
{}

// So hints never change the shape: two accepted walks of one schema and selection are alike, Arrow types and metadata aside.
pub fn hints_keep_shape()
    ensures law { HintsKeepShape }
{}

// And the laws of levels hold of every accepted walk.
pub fn walk_leveled()
    ensures law { WalkLeveled }
{}

// The walk is refused with exactly the first fault in walking order, and accepted where there is none.
#[tactic(auto, using(crate::proofs::Refused::refused_first))]
pub fn refused_first()
    ensures law { RefusedFirst }
{}

// The walking order is the order of the elements' numbers; the faults of one element name it, and come by rank: 20 first, then rising numbers.
#[tactic(auto, using(crate::proofs::Ordered::walked_in_order))]
pub fn walked_in_order()
    ensures law { WalkedInOrder }
{}

// Which hint reaches which element: the root the first, and each child by what its parent is.
pub fn hints_reach()
    ensures law { HintsReach }
{}

// By which field its parent knows each row: name, nullability and metadata of a struct's child, a list's element, a map's key and value, a
// LIST or MAP group, the inner row of a repeated element, and the root.
pub fn fields_told()
    ensures law { FieldsTold }
{}

// A LIST group is read as the format's page on logical types says, where its repeated field has no annotation.
pub fn lists_as_published()
    ensures law { ListsAsPublished }
    ensures told { PublishedListsTold }
{}

// So is a MAP group with a required key and a value.
#[tactic(auto, using(crate::proofs::Pages::maps_as_published))]
pub fn maps_as_published()
    ensures law { MapsAsPublished }
{}

// On the flat tables of a finished schema and of an accepted walk over it: each leaf row has the highest levels that a listing counts for its leaf,
// and on its way each definition level is read once and each repetition level is opened once, as the elements of its path say.
pub fn flat_levels()
    ensures law { FlatLevels }
    ensures flat { RowsLieFlat }
{}

// The walk's leaves are a listing's columns, number by number.
pub fn leaves_as_listed()
    ensures law { LeavesAsListed }
{}

// Finished tables that show the same elements, wherever their names lie, have the same tree, and so the same walks.
pub fn same_schema()
    ensures law { SameSchema }
{}

// Only the choice of the schema's own leaves plays a part.
#[tactic(auto, using(crate::proofs::Chosen::same_selection))]
pub fn same_selection()
    ensures law { SameSelection }
{}

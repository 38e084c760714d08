//! What follows from the definitions. Each function's contract is one law; its body is empty.
ghost use Rattle.std.specs.Prelude.{ℕ};
ghost use Rattle.json_objects.specs.Entries.{Entries};
ghost use Rattle.json_objects.specs.Laws.{AreToldApart, HasNoBreak, IsText, ReadsBack};

/// The members in braces are the text of the object that they make.
pub fn members_are_an_object()
    ensures { (es : Entries) → IsText es }
{}

/// The text of an object has no line break.
pub fn text_has_no_break()
    ensures { (es : Entries) → HasNoBreak es }
{}

/// A reader of JSON reads the object from its text.
pub fn text_reads_back()
    ensures { (es : Entries) → ReadsBack es }
{}

/// Different objects have different texts.
pub fn text_tells_apart()
    ensures { (es fs : Entries) → AreToldApart es fs }
{}

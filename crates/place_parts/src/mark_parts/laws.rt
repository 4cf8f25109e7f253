//! What holds of the parts of marks. The function's contract is a law; it computes nothing.

ghost use Rattle.place_parts.specs.MarkParts.Laws.{PartsAreOfMarks};

/// In a pipeline that is laid out for the same program the parts are those of its marks.
pub fn parts_are_of_marks()
    ensures { PartsAreOfMarks }
{}

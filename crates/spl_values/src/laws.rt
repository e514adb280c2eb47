//! Laws of codes, texts and keys: each is the contract of a function that does nothing.
ghost use Rattle.spl_values.specs.Laws.{CodesDiffer, CodesKeepOrder, CodesAreBelow, PrintedValuesRead, PrintedShapesRead, ShapeTextsRead};

/// Codes of different values differ.
pub fn codes_differ()
    ensures { CodesDiffer }
{}

/// A smaller value has a smaller code.
pub fn codes_keep_order()
    ensures { CodesKeepOrder }
{}

/// A code has no more than its column's bits.
pub fn codes_are_below()
    ensures { CodesAreBelow }
{}

/// A column reads a printed value as that value.
pub fn printed_values_read()
    ensures { PrintedValuesRead }
{}

/// The canonical text of a shape reads as that shape.
pub fn printed_shapes_read()
    ensures { PrintedShapesRead }
{}

/// A text reads as a shape exactly where its lines are those of the shape.
pub fn shape_texts_read()
    ensures { ShapeTextsRead }
{}

// Laws of what is kept.
ghost use Rattle.cf_project.specs.Laws.{AsksAreAlike, ExpressionsHoldAlike, KeptRowsFit, KeptShapesAreShapes, LanesAreAlike, NamedAreKept, NodesAreAlike, NothingIsLost, TriggersAreAlike};

/// The attributes that a shape and its questions name are all that these need.
pub fn named_are_kept()
    ensures { NamedAreKept }
{}

/// What is left of a shape is one, and what is left of a row that fits, fits.
pub fn kept_are_lawful()
    ensures shapes { KeptShapesAreShapes }
    ensures rows { KeptRowsFit }
{}

/// Where all is kept, the shape and its rows stay as they are.
pub fn nothing_is_lost()
    ensures { NothingIsLost }
{}

/// On what is left of rows, an expression holds of the same rows, a lane selects the same ones, by the same keys, measures the same of them
/// and needs as many nodes; a question finds the same and has the same answer, and a trigger makes the same marks.
pub fn kept_mean_the_same()
    ensures expressions { ExpressionsHoldAlike }
    ensures lanes { LanesAreAlike }
    ensures nodes { NodesAreAlike }
    ensures asks { AsksAreAlike }
    ensures triggers { TriggersAreAlike }
{}

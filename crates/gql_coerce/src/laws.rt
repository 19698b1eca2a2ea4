//! Laws of coercion. The functions do nothing; their contracts hold.
ghost use Rattle.gql_coerce.specs.Laws as laws;

/// An input comes to at most one outcome at a type.
pub fn one_outcome()
    ensures { laws.OneOutcome }
{}

/// An input comes to the outcome that is reached with some number of levels: more levels change
/// nothing.
pub fn any_depth()
    ensures { laws.AnyDepth }
{}

/// The variables of a request come to at most one outcome.
pub fn one_of_variables()
    ensures { laws.OneOfVariables }
{}

/// Arguments come to at most one outcome.
pub fn one_of_arguments()
    ensures { laws.OneOfArguments }
{}

/// If no default leads back to itself, an input comes to some outcome at each type.
pub fn some_outcome()
    ensures { laws.SomeOutcome }
{}

/// What coercion refuses of a literal without variables is among what `bad_values` reports, if the
/// fields of input objects are good and the type is known.
pub fn refusal_is_reported()
    ensures { laws.RefusalIsReported }
{}

/// A literal without variables in which no field is given twice fits exactly if it comes to a
/// value, under the same premises.
pub fn fits_where_coerced()
    ensures { laws.FitsWhereCoerced }
{}

/// If no default leads back to itself, the variables of a request come to some outcome.
pub fn some_of_variables()
    ensures { laws.SomeOfVariables }
{}

/// If no default leads back to itself, the arguments of a field come to some outcome.
pub fn some_of_arguments()
    ensures { laws.SomeOfArguments }
{}

/// A refusal of the variables of a request begins with the name of one of them.
pub fn named_refusals()
    ensures { laws.NamedRefusals }
{}

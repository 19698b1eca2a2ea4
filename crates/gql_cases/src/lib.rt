//! Definitions for readers: what an input comes to, what variables and arguments come to, what of a
//! value does not fit its type, which fields a selection set stands for, each in cases; when two
//! fields are the same call; which errors a field has; and a mutation field by field; and for each a
//! law that it is exactly the definition that contracts cite. The functions do nothing; their
//! contracts hold.
#![tactic(auto)]

ghost use Rattle.gql_cases.specs.CallExamples as examples;
ghost use Rattle.gql_cases.specs.Errors.{KeepsErrors};
ghost use Rattle.gql_cases.specs.Fields.{Flattens};
ghost use Rattle.gql_cases.specs.Inputs.{InCases};
ghost use Rattle.gql_cases.specs.Misfits.{BadValuesInCases};
ghost use Rattle.gql_cases.specs.Mutations.{
  AnswerInTurn,
  DataInTurn,
  EffectsInTurn,
  RequestInTurn,
  ValueInTurn,
};
ghost use Rattle.gql_cases.specs.Requests.{ArgumentsInCases, VariablesInCases};
ghost use Rattle.gql_cases.specs.SameCalls.{
  SameCallHasSameText,
  SameTextForSameCall,
  SharedCallIsSameCall,
};
ghost use Rattle.gql_cases.specs.SameShapes.{SharedShapeIsSameShape};

/// What an input comes to, in cases, is what it comes to by the contracts of gql_coerce.
pub fn inputs()
    ensures { InCases }
{}

/// What the variables of a request and the arguments of a field come to, in cases, is what they come
/// to by the contracts of gql_coerce.
pub fn requests()
    ensures variables { VariablesInCases }
    ensures arguments { ArgumentsInCases }
{}

/// What of a value does not fit its type, in cases, is what `bad_values` of gql_inputs finds.
pub fn bad_values()
    ensures { BadValuesInCases }
{}

/// The fields that selections stand for are those into which they unfold by the contracts of
/// gql_collect.
pub fn fields()
    ensures { Flattens }
{}

/// Two fields are the same call exactly if their texts, by which the contracts of gql_merge compare
/// fields, are equal. The same call has the same text whatever its names and values are; the other
/// way, they are those that a document can write.
pub fn calls()
    ensures one_text { SameTextForSameCall }
    ensures same_text { SameCallHasSameText }
    ensures shared { SharedCallIsSameCall }
{}

/// Whether two fields share their shape, as the contracts of gql_merge ask, is whether their types
/// have the same shape.
pub fn shapes()
    ensures { SharedShapeIsSameShape }
{}

/// Arguments have no order. Their values count, a field of an object counts as often as it is
/// written, and an enum value is not a string.
pub fn call_examples()
    ensures order { examples.OrderDoesNotCount }
    ensures values { examples.ValuesCount }
    ensures fields { examples.TwiceIsNotOnce }
    ensures kinds { examples.EnumIsNotString }
{}

/// The errors of a field are those of the fields below it, and the first of its own: those that
/// execution keeps by the contracts of gql_exec.
pub fn errors()
    ensures { KeepsErrors }
{}

/// The root fields of a mutation take effect one after the other, each on the data that the fields
/// before it left. By the contracts of gql_exec all are executed on the data before the mutation, and
/// what they add is added afterwards: the value, the errors and what is added are the same, and so
/// are the data in the end.
pub fn mutations()
    ensures value { ValueInTurn }
    ensures effects { EffectsInTurn }
    ensures answer { AnswerInTurn }
    ensures request { RequestInTurn }
    ensures data { DataInTurn }
{}

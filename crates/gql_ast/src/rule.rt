//! The rules that faults break, with their names.

ghost use Rattle.std.specs.Prelude.{◌≡◌};
ghost use Rattle.gql_ast.specs.Rules.{name_of};

/// The rules that faults break, by the names that users see, in the order of these names.
///
/// P is for what this registry does not serve, S for the rules on a schema (GraphQL 3) and V for
/// the rules on documents (GraphQL 5). `docs/RULES.md` says where each is reported and about what.
#[derive(Clone, Copy, Debug, PartialEq, Eq)]
pub enum Rule {
    /// Float References: a schema file refers to Float, where it is not served.
    P01,
    /// Subscription Roots: the schema has a subscription root, where subscriptions are not served.
    P02,
    /// Subscriptions Without a Root: an operation is a subscription, and the schema has no
    /// subscription root.
    P03,
    /// Float Variables: a variable is of type Float, where it is not served.
    P04,
    /// Mutations Without a Root: an operation is a mutation, and the schema has no mutation root.
    P05,
    /// Duplicate Types: two type definitions have the same name.
    S01,
    /// Duplicate Directives: two directive definitions have the same name.
    S02,
    /// Reserved Names: a name that a schema file defines begins with two underscores.
    S03,
    /// Built-In Names: a built-in scalar or directive, or Float, is defined again.
    S04,
    /// Empty Types: a type that needs fields, enum values or members has none.
    S05,
    /// Duplicate Fields: a type has two fields or two input fields of the same name.
    S06,
    /// Duplicate Values: an enum has two values, or a union two members, of the same name.
    S07,
    /// Duplicate Arguments: a field or a directive has two arguments of the same name.
    S08,
    /// Bad Interface Names: a type lists a type that is not an interface, or lists a name twice.
    S09,
    /// Self-Implementation: an interface implements itself.
    S10,
    /// Undeclared Interfaces: a type does not declare an interface that one of its own declares.
    S11,
    /// Missing Fields: a type has no field for a field of an interface that it implements.
    S12,
    /// Missing Arguments: an argument of the interface's field is missing, or its type differs.
    S13,
    /// Extra Required Arguments: a required argument is not one of the interface's field.
    S14,
    /// Incompatible Field Types: a field's type is not covariant with the interface's.
    S15,
    /// Non-Input Types: the type of an argument or an input field is not an input type.
    S16,
    /// Input Object Cycles: an input object refers to itself through Non-Null fields.
    S17,
    /// Bad Default Values: a default value does not fit the type of its argument or input field.
    S18,
    /// Default Value Cycles: the default value of an input field needs itself.
    S19,
    /// Unknown Types: a reference names no type.
    S20,
    /// Non-Output Types: the type of a field is not an output type.
    S21,
    /// Non-Object Members: a member of a union is not an object.
    S22,
    /// Missing Query Root: the schema has no query root operation type.
    S23,
    /// Non-Object Roots: a root operation type is not an object.
    S24,
    /// Shared Root Types: two kinds of operations have the same root operation type.
    S25,
    /// Directive Cycles: the definition of a directive refers to the directive itself.
    S26,
    /// Extensions of Unknown Types: an extension names no type.
    S27,
    /// Extensions of Another Kind: an extension names a type of another kind.
    S28,
    /// Unknown Directives: an applied directive is not defined.
    S29,
    /// Bad Locations: a directive is applied at a location that it does not list.
    S30,
    /// Repeated Directives: a directive that is not repeatable is applied twice.
    S31,
    /// Bad Arguments: an argument of an applied directive is undefined, repeated or missing.
    S32,
    /// Bad Argument Values: the value of an applied directive's argument does not fit its type.
    S33,
    /// Duplicate Schemas: there are two schema definitions, or an operation type is given twice.
    S34,
    /// Deprecated Required Inputs: a required argument or input field is deprecated.
    S35,
    /// Misplaced Appends: `@append` is on a field that is not one of the mutation root type.
    S36,
    /// Executable Definitions: a document file has a definition of the type system.
    V01,
    /// Operation Name Uniqueness: two operations have the same name.
    V02,
    /// Lone Anonymous Operation: an operation without a name is not the only one.
    V03,
    /// Field Selections: the parent type has no field of this name.
    V04,
    /// Field Selection Merging: two fields of one response name differ in name or arguments.
    V05,
    /// Field Selection Merging: two fields of one response name differ in shape.
    V06,
    /// Leaf Field Selections: a leaf field has a selection set, or a composite one has none.
    V07,
    /// Argument Names: an argument of a field or a directive is not defined.
    V08,
    /// Argument Uniqueness: an argument is given twice.
    V09,
    /// Required Arguments: a required argument is missing or null.
    V10,
    /// Fragment Name Uniqueness: two fragments have the same name.
    V11,
    /// Fragment Spread Type Existence: a type condition names no type.
    V12,
    /// Fragments On Composite Types: a type condition names a type that is not composite.
    V13,
    /// Fragments Must Be Used: no spread of the document names the fragment.
    V14,
    /// Fragment Spread Target Defined: a spread names no fragment.
    V15,
    /// Fragment Spreads Must Not Form Cycles: a fragment spreads itself.
    V16,
    /// Fragment Spread Is Possible: no object is possible for both condition and parent.
    V17,
    /// Values of Correct Type: a value does not fit the type that is expected of it.
    V18,
    /// Input Object Field Names: an object value has a field that is not defined.
    V19,
    /// Input Object Field Uniqueness: an object value has two fields of the same name.
    V20,
    /// Input Object Required Fields: a required input field is missing or null.
    V21,
    /// Directives Are Defined: an applied directive is not defined.
    V22,
    /// Directives Are in Valid Locations: a directive does not list the location.
    V23,
    /// Directives Are Unique per Location: a directive that is not repeatable is applied twice.
    V24,
    /// Variable Uniqueness: an operation has two variables of the same name.
    V25,
    /// Variables Are Input Types: the type of a variable is unknown, or not an input type.
    V26,
    /// All Variable Uses Defined: an operation does not define a variable that it uses.
    V27,
    /// All Variables Used: neither the operation nor its fragments use a variable.
    V28,
    /// All Variable Usages Are Allowed: a variable is used where its type does not fit.
    V29,
    /// Single Root Field: a subscription does not have exactly one root field, or that is a field of
    /// introspection.
    V30,
}

impl Rule {
    /// The rule's name, a letter and two digits.
    pub fn name(self) -> &'static str
        ensures { result.now ≡ name_of self }
    {
        match self {
            Rule::P01 => "P01",
            Rule::P02 => "P02",
            Rule::P03 => "P03",
            Rule::P04 => "P04",
            Rule::P05 => "P05",
            Rule::S01 => "S01",
            Rule::S02 => "S02",
            Rule::S03 => "S03",
            Rule::S04 => "S04",
            Rule::S05 => "S05",
            Rule::S06 => "S06",
            Rule::S07 => "S07",
            Rule::S08 => "S08",
            Rule::S09 => "S09",
            Rule::S10 => "S10",
            Rule::S11 => "S11",
            Rule::S12 => "S12",
            Rule::S13 => "S13",
            Rule::S14 => "S14",
            Rule::S15 => "S15",
            Rule::S16 => "S16",
            Rule::S17 => "S17",
            Rule::S18 => "S18",
            Rule::S19 => "S19",
            Rule::S20 => "S20",
            Rule::S21 => "S21",
            Rule::S22 => "S22",
            Rule::S23 => "S23",
            Rule::S24 => "S24",
            Rule::S25 => "S25",
            Rule::S26 => "S26",
            Rule::S27 => "S27",
            Rule::S28 => "S28",
            Rule::S29 => "S29",
            Rule::S30 => "S30",
            Rule::S31 => "S31",
            Rule::S32 => "S32",
            Rule::S33 => "S33",
            Rule::S34 => "S34",
            Rule::S35 => "S35",
            Rule::S36 => "S36",
            Rule::V01 => "V01",
            Rule::V02 => "V02",
            Rule::V03 => "V03",
            Rule::V04 => "V04",
            Rule::V05 => "V05",
            Rule::V06 => "V06",
            Rule::V07 => "V07",
            Rule::V08 => "V08",
            Rule::V09 => "V09",
            Rule::V10 => "V10",
            Rule::V11 => "V11",
            Rule::V12 => "V12",
            Rule::V13 => "V13",
            Rule::V14 => "V14",
            Rule::V15 => "V15",
            Rule::V16 => "V16",
            Rule::V17 => "V17",
            Rule::V18 => "V18",
            Rule::V19 => "V19",
            Rule::V20 => "V20",
            Rule::V21 => "V21",
            Rule::V22 => "V22",
            Rule::V23 => "V23",
            Rule::V24 => "V24",
            Rule::V25 => "V25",
            Rule::V26 => "V26",
            Rule::V27 => "V27",
            Rule::V28 => "V28",
            Rule::V29 => "V29",
            Rule::V30 => "V30",
        }
    }
}

//! The names and the sentences of the rules, those of the tables "what is at fault" of
//! `docs/RULES.md`.

ghost use Rattle.std.specs.Prelude.{◌≡◌};
ghost use Rattle.gql_findings.specs.Words.{title_of, sentence_of};

use gql_ast::Rule;

/// The names of the rules, each in the place of its variant in `Rule`.
static TITLES: [&str; 71] = [
    "Float References", // P01
    "Subscription Roots", // P02
    "Subscriptions", // P03
    "Float Variables", // P04
    "Mutations Without a Root", // P05
    "Duplicate Types", // S01
    "Duplicate Directives", // S02
    "Reserved Names", // S03
    "Built-In Names", // S04
    "Empty Types", // S05
    "Duplicate Fields", // S06
    "Duplicate Values", // S07
    "Duplicate Arguments", // S08
    "Bad Interface Names", // S09
    "Self-Implementation", // S10
    "Undeclared Interfaces", // S11
    "Missing Fields", // S12
    "Missing Arguments", // S13
    "Extra Required Arguments", // S14
    "Incompatible Field Types", // S15
    "Non-Input Types", // S16
    "Input Object Cycles", // S17
    "Bad Default Values", // S18
    "Default Value Cycles", // S19
    "Unknown Types", // S20
    "Non-Output Types", // S21
    "Non-Object Members", // S22
    "Missing Query Root", // S23
    "Non-Object Roots", // S24
    "Shared Root Types", // S25
    "Directive Cycles", // S26
    "Extensions of Unknown Types", // S27
    "Extensions of Another Kind", // S28
    "Unknown Directives", // S29
    "Bad Locations", // S30
    "Repeated Directives", // S31
    "Bad Arguments", // S32
    "Bad Argument Values", // S33
    "Duplicate Schemas", // S34
    "Deprecated Required Inputs", // S35
    "Misplaced Appends", // S36
    "Executable Definitions", // V01
    "Operation Name Uniqueness", // V02
    "Lone Anonymous Operation", // V03
    "Field Selections", // V04
    "Field Selection Merging", // V05
    "Field Selection Merging", // V06
    "Leaf Field Selections", // V07
    "Argument Names", // V08
    "Argument Uniqueness", // V09
    "Required Arguments", // V10
    "Fragment Name Uniqueness", // V11
    "Fragment Spread Type Existence", // V12
    "Fragments On Composite Types", // V13
    "Fragments Must Be Used", // V14
    "Fragment Spread Target Defined", // V15
    "Fragment Spreads Must Not Form Cycles", // V16
    "Fragment Spread Is Possible", // V17
    "Values of Correct Type", // V18
    "Input Object Field Names", // V19
    "Input Object Field Uniqueness", // V20
    "Input Object Required Fields", // V21
    "Directives Are Defined", // V22
    "Directives Are in Valid Locations", // V23
    "Directives Are Unique per Location", // V24
    "Variable Uniqueness", // V25
    "Variables Are Input Types", // V26
    "All Variable Uses Defined", // V27
    "All Variables Used", // V28
    "All Variable Usages Are Allowed", // V29
    "Single Root Field", // V30
];

/// The sentences of the rules, each in the place of its variant in `Rule`.
static SENTENCES: [&str; 71] = [
    "a schema file refers to Float, which only --profile october-2021 serves.", // P01
    "the schema has a subscription root, which only --profile october-2021 serves.", // P02
    "an operation is a subscription, and the schema has no subscription root.", // P03
    "a variable is of type Float, which only --profile october-2021 serves.", // P04
    "an operation is a mutation, and the schema has no mutation root.", // P05
    "two type definitions have the same name.", // S01
    "two directive definitions have the same name.", // S02
    "a name that a schema file defines begins with two underscores.", // S03
    "a built-in scalar or directive, or Float, is defined again.", // S04
    "a type that needs fields, enum values or members has none.", // S05
    "a type has two fields or two input fields of the same name.", // S06
    "an enum has two values, or a union two members, of the same name.", // S07
    "a field or a directive has two arguments of the same name.", // S08
    "a type lists a type that is no interface, or lists a name twice.", // S09
    "an interface implements itself.", // S10
    "a type does not declare an interface that one of its own declares.", // S11
    "a type has no field for a field of an interface that it implements.", // S12
    "an argument of the interface's field is missing, or its type differs.", // S13
    "a required argument is not one of the interface's field.", // S14
    "a field's type is not covariant with the interface's.", // S15
    "the type of an argument or an input field is not an input type.", // S16
    "an input object refers to itself through Non-Null fields.", // S17
    "a default value does not fit the type of its argument or input field.", // S18
    "the default value of an input field needs itself.", // S19
    "a reference names no type.", // S20
    "the type of a field is not an output type.", // S21
    "a member of a union is not an object.", // S22
    "the schema has no query root operation type.", // S23
    "a root operation type is not an object.", // S24
    "two kinds of operations have the same root operation type.", // S25
    "the definition of a directive refers to the directive itself.", // S26
    "an extension names no type.", // S27
    "an extension names a type of another kind.", // S28
    "an applied directive is not defined.", // S29
    "a directive is applied at a location that it does not list.", // S30
    "a directive that is not repeatable is applied twice.", // S31
    "an argument of an applied directive is undefined, repeated or missing.", // S32
    "the value of an applied directive's argument does not fit its type.", // S33
    "there are two schema definitions, or an operation type is given twice.", // S34
    "a required argument or input field is deprecated.", // S35
    "`@append` is on a field that is not one of the mutation root type.", // S36
    "a document file has a definition of the type system.", // V01
    "two operations have the same name.", // V02
    "an operation without a name is not the only one.", // V03
    "the parent type has no field of this name.", // V04
    "two fields of one response name differ in name or arguments.", // V05
    "two fields of one response name differ in shape.", // V06
    "a leaf field has a selection set, or a composite one has none.", // V07
    "an argument of a field or a directive is not defined.", // V08
    "an argument is given twice.", // V09
    "a required argument is missing or null.", // V10
    "two fragments have the same name.", // V11
    "a type condition names no type.", // V12
    "a type condition names a type that is not composite.", // V13
    "no spread of the document names the fragment.", // V14
    "a spread names no fragment.", // V15
    "a fragment spreads itself.", // V16
    "no object is possible for both condition and parent.", // V17
    "a value does not fit the type that is expected of it.", // V18
    "an object value has a field that is not defined.", // V19
    "an object value has two fields of the same name.", // V20
    "a required input field is missing or null.", // V21
    "an applied directive is not defined.", // V22
    "a directive does not list the location.", // V23
    "a directive that is not repeatable is applied twice.", // V24
    "an operation has two variables of the same name.", // V25
    "the type of a variable is unknown, or not an input type.", // V26
    "an operation does not define a variable that it uses.", // V27
    "neither the operation nor its fragments use a variable.", // V28
    "a variable is used where its type does not fit.", // V29
    "a subscription has no root field, several, or one of introspection.", // V30
];

/// The name of a rule, as in "Field Selections".
pub fn title(rule: Rule) -> &'static str
    ensures { result.now ≡ title_of rule }
{
    TITLES[rule as usize]
}

/// What is at fault by a rule, in a sentence that follows its name and a colon.
pub fn sentence(rule: Rule) -> &'static str
    ensures { result.now ≡ sentence_of rule }
{
    SENTENCES[rule as usize]
}

//! The keywords that begin the definitions of types (GraphQL specification, 3.4).
ghost use Rattle.std.specs.Prelude.{◌≡◌};
ghost use Rattle.gql_parse_sdl.specs.Types as spec;

/// What kind of type is defined or extended.
#[derive(Clone, Copy, Debug, PartialEq, Eq)]
pub enum TypeKeyword {
    /// `scalar` (3.5).
    Scalar,
    /// `type` (3.6).
    Object,
    /// `interface` (3.7).
    Interface,
    /// `union` (3.8).
    Union,
    /// `enum` (3.9).
    Enum,
    /// `input` (3.10).
    InputObject,
}

impl TypeKeyword {
    /// The keyword of this text, if it is one.
    pub fn of(text: &str) -> Option<TypeKeyword>
        ensures { result ≡ spec.type_keyword text.now }
    {
        if text == "scalar" {
            Some(TypeKeyword::Scalar)
        } else if text == "type" {
            Some(TypeKeyword::Object)
        } else if text == "interface" {
            Some(TypeKeyword::Interface)
        } else if text == "union" {
            Some(TypeKeyword::Union)
        } else if text == "enum" {
            Some(TypeKeyword::Enum)
        } else if text == "input" {
            Some(TypeKeyword::InputObject)
        } else {
            None
        }
    }

    /// The text of the keyword.
    pub fn spelling(self) -> &'static str
        ensures { result.now ≡ spec.spelling self }
    {
        match self {
            TypeKeyword::Scalar => "scalar",
            TypeKeyword::Object => "type",
            TypeKeyword::Interface => "interface",
            TypeKeyword::Union => "union",
            TypeKeyword::Enum => "enum",
            TypeKeyword::InputObject => "input",
        }
    }
}

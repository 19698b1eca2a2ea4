//! What a registry serves and how much it takes: its profile.

ghost use Rattle.std.specs.Prelude.{◌≡◌};
ghost use Rattle.gql_ast.specs.Profiles as spec;

/// How much is taken of each thing. What is over a limit is refused.
#[derive(Clone, Copy, Debug, PartialEq, Eq)]
pub struct Limits {
    /// The greatest number of bytes of a schema file (203).
    pub schema_file: usize,
    /// The greatest number of bytes of a document file (203).
    pub document_file: usize,
    /// How many schema files, and how many document files, there may be (205).
    pub files: usize,
    /// The greatest number of bytes of a file name.
    pub name: usize,
    /// The greatest weight of an answer, in values (210).
    pub values: usize,
    /// The greatest number of bytes of a request's body (303).
    pub body: usize,
}

/// What is served. It is chosen once, and lies with the files.
#[derive(Clone, Copy, Debug, PartialEq, Eq)]
pub struct Profile {
    /// Whether Float is a type (GraphQL specification, 3.5.2).
    pub floats: bool,
    /// Whether a schema may have a subscription root (3.3.1).
    pub subscriptions: bool,
    pub limits: Limits,
}

impl Profile {
    /// No Float and no subscriptions: all numbers are whole. Users know it as `whole-numbers`. It
    /// is the profile where none is named.
    pub fn whole_numbers() -> Profile
        ensures { result ≡ spec.whole_numbers }
    {
        Profile {
            floats: false,
            subscriptions: false,
            limits: Limits {
                schema_file: 65_536,
                document_file: 65_536,
                files: 256,
                name: 64,
                values: 100_000,
                body: 262_144,
            },
        }
    }

    /// The whole type system of the specification of October 2021, with large schemas. Users know
    /// it as `october-2021`.
    pub fn october_2021() -> Profile
        ensures { result ≡ spec.october_2021 }
    {
        Profile {
            floats: true,
            subscriptions: true,
            limits: Limits {
                schema_file: 4_194_304,
                document_file: 65_536,
                files: 10_000,
                name: 255,
                values: 1_000_000,
                body: 8_388_608,
            },
        }
    }
}

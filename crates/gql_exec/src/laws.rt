//! Laws of execution. The functions do nothing; their contracts hold.
ghost use Rattle.gql_exec.specs.Laws as laws;

/// A request has at most one response.
pub fn one_response()
    ensures { laws.OneResponse }
{
    gql_collect::laws::one_collection();
    gql_coerce::laws::one_of_arguments();
    gql_coerce::laws::one_of_variables();
}

/// A request has a response if the root type of its operation is an object type, no default value
/// leads back to itself, and no fragment that the operation leads to leads back to itself.
pub fn some_response()
    ensures { laws.SomeResponse }
{
    gql_collect::laws::some_depth();
    gql_collect::laws::some_groups();
    gql_coerce::laws::some_of_variables();
    gql_coerce::laws::some_of_arguments();
    gql_coerce::laws::named_refusals();
}

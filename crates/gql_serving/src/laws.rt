//! The laws of schemas without faults, and of operations that are served. The functions do nothing;
//! their contracts hold.
ghost use Rattle.gql_serving.specs.Laws as laws;
ghost use Rattle.gql_serving.specs.SoundSchemas as sound;

/// In a schema without faults, no default value leads back to itself.
pub fn no_default_cycles()
    ensures { sound.NoDefaultCycles }
{}

/// Schema files without faults have what introspection needs, so that each field of a node of the
/// schema resolves to an answer of the field's type, whose nodes are again nodes of the schema.
pub fn introspection()
    ensures files { sound.ServesIntrospection }
    ensures answers { sound.AnswersHaveTheirTypes }
{
    gql_intro::laws::answers_have_their_types();
}

/// If the schema has no fault, every request of an operation without faults has a response.
pub fn some_answer()
    ensures { laws.SomeAnswer }
{
    no_default_cycles();
    gql_exec::laws::some_response();
}

/// If the schema has no fault, no operation without faults is a subscription where the profile of
/// the files has no subscriptions.
pub fn no_subscriptions()
    ensures { laws.NoSubscriptions }
{}

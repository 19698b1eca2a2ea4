//! Laws of the registry's report and edits. The functions do nothing: what they ensure is the law.
ghost use Rattle.gql_registry.specs.Laws.{AllAreRun, AsOneByOne, DataLeft, EditKeepsProfile, HoldsAfter, OneAnswer, OneEdit, OneLoad, OneReport};

/// Files have at most one report. Unless an allocation fails, an edit has at most one answer and
/// leaves at most one state, and a call has at most one answer.
pub fn one_outcome()
    ensures edit { OneEdit }
    ensures call { OneAnswer }
    ensures report { OneReport }
{
    gql_parse_sdl::one_answer();
    gql_parse_sdl::one_document_answer();
    gql_report::laws::one_order();
    gql_exec::laws::one_response();
}

/// Changes that are accepted in turn leave at most one state. An edit leaves what its changes leave as
/// edits of their own, one after the other, but for the revision, which it raises by one.
pub fn one_load()
    ensures one { OneLoad }
    ensures each { AsOneByOne }
{
    gql_parse_sdl::one_answer();
    gql_parse_sdl::one_document_answer();
}

/// Edits keep the profile.
pub fn keeps_profile()
    ensures { EditKeepsProfile }
{}

/// Without subscriptions, every operation that no fault keeps from being executed is run.
pub fn all_are_run()
    ensures { AllAreRun }
{
    gql_serving::laws::no_subscriptions();
}

/// After an accepted edit, a name of a side holds what the last change of it left: the document that
/// was put, or nothing if it was removed; and what it held before if no change is of it.
pub fn holds_after()
    ensures { HoldsAfter }
{}

/// After an accepted edit, the data are those that the last change of them put, and those before if no
/// change is of them.
pub fn data_left()
    ensures { DataLeft }
{}

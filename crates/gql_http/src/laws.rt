//! Laws of the service and its hub. The functions do nothing: what they ensure is the law.
ghost use Rattle.gql_http.specs.Laws.{AnyPieces, CallThen, DataInOrder, DataPresent, FilesPresent, InOrder, OneDeed, OneOrder, OneRun, OneStep, ReportThen, RevisionCounts, RunKeepsProfile, SomeOrder, TwoParts, WithoutBatches};

/// Where batches are not served, as under whole numbers, every request makes the call that it makes
/// where an edit is of one file or of the data, and every edit has one change.
pub fn without_batches()
    ensures { WithoutBatches }
{}

/// A request has at most one answer, and leaves at most one state.
pub fn one_step()
    ensures { OneStep }
{
    gql_registry::laws::one_outcome();
}

/// Requests one after the other have at most one list of answers, and leave at most one state.
pub fn one_run()
    ensures { OneRun }
{
    gql_registry::laws::one_outcome();
}

/// An event has at most one answer, and leaves at most one state and one set of unfinished bytes.
pub fn one_deed()
    ensures { OneDeed }
{
    gql_registry::laws::one_outcome();
    gql_wire::laws::one_split();
}

/// Every list of events has exactly one order of requests.
pub fn one_order()
    ensures some { SomeOrder }
    ensures one { OneOrder }
{
    gql_wire::laws::some_split();
    gql_wire::laws::one_split();
}

/// Whatever the events, the hub answers each with the answers to the requests that it completes,
/// and all requests are run one after the other in the order in which they are complete.
pub fn in_order()
    ensures { InOrder }
{
    gql_wire::laws::nothing_is_unfinished();
    gql_wire::laws::some_split();
    gql_wire::laws::one_split();
    gql_wire::laws::more_bytes();
}

/// The requests that the feeds after an opening complete are those of all bytes that they feed,
/// whatever the pieces are.
pub fn any_pieces()
    ensures { AnyPieces }
{
    gql_wire::laws::nothing_is_unfinished();
    gql_wire::laws::one_split();
    gql_wire::laws::more_bytes();
    gql_wire::laws::closed_drops();
}

/// A piece that is fed in two parts, the first of which leaves the connection open, does what the
/// whole does.
pub fn two_parts()
    ensures { TwoParts }
{
    gql_wire::laws::some_split();
    gql_wire::laws::one_split();
    gql_wire::laws::more_bytes();
}

/// After requests that began with no files, each name of a side holds the document of its last
/// accepted edit, and no other name holds one.
pub fn files_present()
    ensures { FilesPresent }
{
    gql_registry::laws::one_load();
    gql_registry::laws::holds_after();
}

/// Requests keep the profile, and with it the limit of bodies.
pub fn run_keeps_profile()
    ensures { RunKeepsProfile }
{}

/// A request for the report is answered with the report of the files that are present after the
/// requests before it.
pub fn report_then()
    ensures { ReportThen }
{}

/// After requests, the data is what accepted edits of the data and served mutations have made of
/// it, one after the other.
pub fn data_present()
    ensures { DataPresent }
{
    gql_registry::laws::one_load();
    gql_registry::laws::data_left();
}

/// Whatever the events, the data is what accepted edits of the data and served mutations have made
/// of it, one after the other, in the order in which the requests are complete.
pub fn data_in_order()
    ensures { DataInOrder }
{
    in_order();
    data_present();
}

/// After requests, the revision has grown by the number of accepted edits among them. A mutation is
/// none.
pub fn revision_counts()
    ensures { RevisionCounts }
{
    gql_registry::laws::one_load();
}

/// A request to run an operation is answered as the registry answers it on the files and the data
/// that are present after the requests before it, and those after it find the data with what it
/// adds.
pub fn call_then()
    ensures { CallThen }
{}

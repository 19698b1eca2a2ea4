//! Laws of the requests of a stream: contracts of functions that do nothing.
ghost use Rattle.gql_wire.specs.Laws.{OneReading, OneSplit, SomeSplit, TakenNext, TakenLast, Feeding, Closed, AnyPieces, RestUnfinished, NothingUnfinished, MoreBytes, EndsWithin};

/// Bytes begin with at most one request, so it does not matter how a stream is cut into pieces.
pub fn one_reading()
    ensures { OneReading }
{}

/// A stream has at most one list of requests, and at most one rest.
pub fn one_split()
    ensures { OneSplit }
{}

/// Each stream has a list of requests and a rest.
pub fn some_split()
    ensures { SomeSplit }
{}

/// A request that a piece completes is the next one of the stream.
pub fn taken_is_next()
    ensures { TakenNext }
{}

/// A request that a piece completes and that closes the connection is the last one of the stream.
pub fn taken_is_last()
    ensures { TakenLast }
{}

/// More bytes of an open stream complete the requests of its rest followed by those bytes.
pub fn feeding()
    ensures { Feeding }
{}

/// More bytes of a closed stream change nothing.
pub fn closed_drops()
    ensures { Closed }
{}

/// Whatever the pieces of a stream are, they complete its requests.
pub fn any_pieces()
    ensures { AnyPieces }
{}

/// The rest of a stream is unfinished.
pub fn rest_is_unfinished()
    ensures { RestUnfinished }
{}

/// The empty list of bytes is unfinished.
pub fn nothing_is_unfinished()
    ensures { NothingUnfinished }
{}

/// More bytes of an open stream keep the requests that were complete, and each new request is
/// completed by the new bytes.
pub fn more_bytes()
    ensures { MoreBytes }
{}

/// Every request of a stream is complete within its bytes.
pub fn ends_within()
    ensures { EndsWithin }
{}

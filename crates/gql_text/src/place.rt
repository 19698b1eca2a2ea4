//! Places in a text: line, column and offset.

ghost use Rattle.std.specs.Prelude.{◌≡◌, ◌+◌, ◌<◌, ◌≤◌, length, take, drop};
ghost use Rattle.std.specs.List.{prefix_len};
ghost use Rattle.gql_text.specs.Place.{place_after};
ghost use Rattle.gql_text.specs.Parts.{is_plain};

/// Where a token starts in its text: line and column count from 1, and a column counts characters;
/// the offset counts the bytes before it.
#[derive(Clone, Copy, Debug, PartialEq, Eq)]
pub struct Place {
    pub line: usize,
    pub column: usize,
    pub offset: usize,
}

/// The place of the first byte of a text.
pub const START: Place = Place {
    line: 1,
    column: 1,
    offset: 0,
};

/// The place after one more byte.
pub fn past_byte(source: &[u8], place: Place) -> Place
    requires within { place.offset < length source.now }
    requires short { length source.now ≤ 16777216 }
    requires known { place ≡ place_after (take place.offset source.now) }
    ensures { result ≡ place_after (take (place.offset + 1) source.now) }
{
    let offset = place.offset;
    let byte = source[offset];
    if 32 <= byte && byte < 128 {
        // a character of one byte, which ends no line
        return Place {
            line: place.line,
            column: place.column + 1,
            offset: offset + 1,
        };
    }
    let after_return = offset > 0 && source[offset - 1] == b'\r';
    let line = if byte == b'\r' || (byte == b'\n' && !after_return) {
        place.line + 1
    } else {
        place.line
    };
    let column = if byte == b'\r' || byte == b'\n' {
        1
    } else if byte < 128 || byte >= 192 {
        place.column + 1
    } else {
        place.column
    };
    Place {
        line,
        column,
        offset: offset + 1,
    }
}

/// The place after the next bytes, each of which is a character by itself and ends no line.
pub fn past_plain(source: &[u8], place: Place, count: usize) -> Place
    requires short { length source.now ≤ 16777216 }
    requires known { place ≡ place_after (take place.offset source.now) }
    requires plain { count ≤ prefix_len is_plain (drop place.offset source.now) }
    ensures { result ≡ place_after (take (place.offset + count) source.now) }
{
    Place {
        line: place.line,
        column: place.column + count,
        offset: place.offset + count,
    }
}

/// The place after the next bytes.
pub fn past(source: &[u8], place: Place, count: usize) -> Place
    requires within { place.offset + count ≤ length source.now }
    requires short { length source.now ≤ 16777216 }
    requires known { place ≡ place_after (take place.offset source.now) }
    ensures { result ≡ place_after (take (place.offset + count) source.now) }
{
    let mut place = place;
    for _step in 0..count {
        place = past_byte(source, place);
    }
    place
}

//! Blanks: the tabs, spaces, line ends and commas between tokens.

ghost use Rattle.std.specs.Prelude.{◌≡◌, ◌+◌, ◌≤◌, length, take, drop};
ghost use Rattle.std.specs.List.{prefix_len};
ghost use Rattle.gql_text.specs.Chars.{is_blank};
ghost use Rattle.gql_text.specs.Place.{place_after};

use crate::front::is_ignored;
use crate::place::{Place, past_byte, past_plain};

/// The place after the blanks that are at this place.
pub fn past_blanks(source: &[u8], place: Place) -> Place
    requires short { length source.now ≤ 16777216 }
    requires known { place ≡ place_after (take place.offset source.now) }
    ensures { result ≡ place_after (take
        (place.offset + prefix_len is_blank (drop place.offset source.now)) source.now) }
{
    let mut place = place;
    'blanks: while place.offset < source.len() {
        let byte = source[place.offset];
        if byte == b' ' {
            place = past_plain(source, place, 1);
        } else if is_ignored(byte) {
            place = past_byte(source, place);
        } else {
            return place;
        }
    }
    place
}

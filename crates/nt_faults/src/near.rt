//! The word that may have been meant.

use crate::place::Place;
use nt_grammar::{ALERTABLE, Bindings, INF, KEYWORDS, PLAIN};
use std::cmp::max;

/// The most bytes of a word of which a near one is looked for: no keyword and no name has more.
const MOST: usize = 32;

/// The nearest word so far, and how near it is: the bytes in common, of a hundred.
#[derive(Drop)]
struct Nearest<'a> {
    word: &'a [u8],
    best: Option<(usize, &'a [u8])>,
}

/// What the next row of the table has at its end, where the row before it has these counts: of the bytes of `word` and a part of `other` that
/// ends with `last`, the most that stand in both in one order.
fn next_row(row: &mut [usize; MOST], word: &[u8], last: u8) -> usize {
    let mut corner: usize = 0;
    let mut left: usize = 0;
    for at in 0..MOST {
        if at >= word.len() {
            return left;
        }
        let above = row[at];
        let here = if word[at] == last {
            corner.saturating_add(1)
        } else {
            max(left, above)
        };
        row[at] = here;
        corner = above;
        left = here;
    }
    left
}

/// The most bytes that stand in both words in one order.
fn in_common(word: &[u8], other: &[u8]) -> usize {
    let mut row = [0; MOST];
    let mut most = 0;
    for byte in other {
        most = next_row(&mut row, word, *byte);
    }
    most
}

impl<'a> Nearest<'a> {
    /// Looks at one more word. Of two that are as near the first is kept.
    fn look(&mut self, other: &'a [u8]) {
        let both = self.word.len().saturating_add(other.len());
        let twice = in_common(self.word, other).saturating_mul(200);
        let near = twice.checked_div(both).unwrap_or(0);
        let best = self.best.map_or(59, |(best, _)| best);
        if near > best && self.word != other {
            self.best = Some((near, other));
        }
    }

    /// Looks at each name that is bound.
    fn look_at_names(&mut self, bindings: &'a Bindings) {
        for place in 0..bindings.len() {
            if let Some(name) = bindings.name_at(place) {
                self.look(name);
            }
        }
    }
}

/// The name that may have been meant by a word that no object has for its name.
pub fn nearest_name<'a>(word: &'a [u8], bindings: &'a Bindings) -> Option<&'a [u8]> {
    near(Place::Object, word, bindings)
}

/// The word that may have been meant by one that can't stand in this place.
pub(crate) fn near<'a>(place: Place, word: &'a [u8], bindings: &'a Bindings) -> Option<&'a [u8]> {
    if word.len() > MOST {
        return None;
    }
    let mut nearest = Nearest { word, best: None };
    match place {
        Place::Opening => nearest.look(b"threads"),
        Place::First => nearest.look(b"tick"),
        Place::Time => nearest.look(INF),
        Place::Mode => {
            nearest.look(PLAIN);
            nearest.look(ALERTABLE);
        }
        Place::Keyword => {
            for keyword in &KEYWORDS {
                nearest.look(keyword.text().as_bytes());
            }
        }
        Place::Object => nearest.look_at_names(bindings),
        _ => {}
    }
    nearest.best.map(|(_, other)| other)
}

// Rows, each with its key, in the words of document 01's tables.
use crate::{HOLDS_VALUES, Row, TIMES_ONCE};
use rules::Digits;

pub(crate) struct Entry {
    pub(crate) key: &'static [u8],
    pub(crate) row: Row,
}

// Values: not empty, at every range, once.
pub(crate) const PLAIN: Row = Row {
    number: 0,
    kind: HOLDS_VALUES,
    parts: 0,
    count: 0,
    across: 0,
    most: 0,
    set: 0,
    inner: 0,
    may: false,
    least: Digits { middle: 0, last: 0 },
    times: TIMES_ONCE,
    place: 0,
    state: 0,
};

// A row by its number and its key, and what differs from a plain one.
macro_rules! row {
    ($number:expr, $key:expr $(, $field:ident: $value:expr)*) => {
        $crate::rows::Entry {
            key: &$key,
            row: $crate::Row { number: $number, $($field: $value,)* ..$crate::rows::PLAIN },
        }
    };
}

pub(crate) use row;

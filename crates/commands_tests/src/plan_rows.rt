//! Payloads, and what comes of plans on them.

use crate::plan_schemas::{
    DEEP, ENUM, EVOLVED, EVOLVED_OPTIONAL_PAIRS, EVOLVED_PAIRS, FEWER, HOLDERS, LAST_TURNED, LIST,
    LIST_FROM_ITS_END, LIST_OF_PAIRS, LONGS, MAP, MAP_ALONE, MAPS, MUTUAL, ONE_OF_THREE, OPTIONAL,
    OPTIONAL_PAIRS, PAIRS, RECORD, RECORDS, RECORDS_OR_LONGS, RENUMBERED, ROWS_OF_LONGS, STRING,
    STRING_ALONE, TREE, TURNED, TURNED_HOLDERS, TURNED_LIST_OF_PAIRS, TURNED_ROWS_OF_LONGS,
    UNMATCHED_RECORD, UNMATCHED_RECORDS_OR_LONGS, VALUE, WIDE, WITH_TREE, WITHOUT_TREE,
};

/// What comes of the plan of a program, on a payload.
#[derive(Clone, Copy, Debug, PartialEq, Eq)]
pub(crate) enum Planned {
    /// The program has none.
    NoPlan,
    /// The plan finds nothing.
    Nothing,
    /// It finds this output.
    Output(&'static [u8]),
}

/// A writer's and a reader's schema, a payload, and what comes of the plan.
pub(crate) struct Row {
    pub(crate) writer: &'static str,
    pub(crate) reader: &'static str,
    pub(crate) payload: &'static [u8],
    pub(crate) planned: Planned,
}

/// What comes of plans of pairs of schemas, on payloads.
pub(crate) const ROWS: &[Row] = &[
    Row {
        writer: RECORD,
        reader: RECORD,
        payload: &[0x36, 0x06, 0x66, 0x6f, 0x6f],
        planned: Planned::Output(&[0x36, 0x06, 0x66, 0x6f, 0x6f]),
    },
    Row {
        writer: RECORD,
        reader: EVOLVED,
        payload: &[0x36, 0x06, 0x66, 0x6f, 0x6f],
        planned: Planned::Output(&[0x06, 0x66, 0x6f, 0x6f, 0x0e, 0x36]),
    },
    Row {
        writer: RECORD,
        reader: STRING_ALONE,
        payload: &[0x36, 0x06, 0x66, 0x6f, 0x6f],
        planned: Planned::Output(&[0x06, 0x66, 0x6f, 0x6f]),
    },
    // (27 in two bytes)
    Row {
        writer: RECORD,
        reader: RECORD,
        payload: &[0xb6, 0x00, 0x06, 0x66, 0x6f, 0x6f],
        planned: Planned::Nothing,
    },
    Row {
        writer: RECORD,
        reader: EVOLVED,
        payload: &[0x36, 0x06, 0x66],
        planned: Planned::Nothing,
    },
    Row {
        writer: RECORD,
        reader: EVOLVED,
        payload: &[0x36, 0x06, 0x66, 0x6f, 0x6f, 0x00],
        planned: Planned::Nothing,
    },
    Row {
        writer: RECORD,
        reader: RECORD,
        payload: &[0x36, 0x06, 0x66, 0x6f, 0xff],
        planned: Planned::Nothing,
    },
    Row {
        writer: LONGS,
        reader: LONGS,
        payload: &[0x04, 0x02, 0x80, 0x01, 0x00],
        planned: Planned::Output(&[0x04, 0x02, 0x80, 0x01, 0x00]),
    },
    Row {
        writer: LONGS,
        reader: LONGS,
        payload: &[0x00],
        planned: Planned::Output(&[0x00]),
    },
    // (a block with its size, two blocks, both with sizes, a count encoded longer than it need be, and the count 0
    // so)
    Row {
        writer: LONGS,
        reader: LONGS,
        payload: &[0x03, 0x04, 0x02, 0x04, 0x00],
        planned: Planned::Output(&[0x04, 0x02, 0x04, 0x00]),
    },
    Row {
        writer: LONGS,
        reader: LONGS,
        payload: &[0x02, 0x02, 0x02, 0x04, 0x00],
        planned: Planned::Output(&[0x04, 0x02, 0x04, 0x00]),
    },
    Row {
        writer: LONGS,
        reader: LONGS,
        payload: &[0x01, 0x02, 0x02, 0x03, 0x06, 0x80, 0x01, 0x06, 0x00],
        planned: Planned::Output(&[0x06, 0x02, 0x80, 0x01, 0x06, 0x00]),
    },
    Row {
        writer: LONGS,
        reader: LONGS,
        payload: &[0x82, 0x00, 0x02, 0x00],
        planned: Planned::Output(&[0x02, 0x02, 0x00]),
    },
    Row {
        writer: LONGS,
        reader: LONGS,
        payload: &[0x02, 0x02, 0x80, 0x00],
        planned: Planned::Output(&[0x02, 0x02, 0x00]),
    },
    // (a size that is too small, one that is too great, one below 0, one of two blocks that is wrong, and a size of 0)
    Row {
        writer: LONGS,
        reader: LONGS,
        payload: &[0x03, 0x02, 0x02, 0x04, 0x00],
        planned: Planned::Nothing,
    },
    Row {
        writer: LONGS,
        reader: LONGS,
        payload: &[0x03, 0x06, 0x02, 0x04, 0x00],
        planned: Planned::Nothing,
    },
    Row {
        writer: LONGS,
        reader: LONGS,
        payload: &[0x03, 0x03, 0x02, 0x04, 0x00],
        planned: Planned::Nothing,
    },
    Row {
        writer: LONGS,
        reader: LONGS,
        payload: &[0x03, 0x02, 0x02, 0x04, 0x01, 0x04, 0x06, 0x00],
        planned: Planned::Nothing,
    },
    Row {
        writer: LONGS,
        reader: LONGS,
        payload: &[0x01, 0x00, 0x00],
        planned: Planned::Nothing,
    },
    Row {
        writer: OPTIONAL,
        reader: OPTIONAL,
        payload: &[0x00],
        planned: Planned::Output(&[0x00]),
    },
    Row {
        writer: OPTIONAL,
        reader: OPTIONAL,
        payload: &[0x02, 0x02, 0x61],
        planned: Planned::Output(&[0x02, 0x02, 0x61]),
    },
    Row {
        writer: OPTIONAL,
        reader: OPTIONAL,
        payload: &[0x04],
        planned: Planned::Nothing,
    },
    Row {
        writer: ONE_OF_THREE,
        reader: ONE_OF_THREE,
        payload: &[0x00],
        planned: Planned::Output(&[0x00]),
    },
    Row {
        writer: ONE_OF_THREE,
        reader: ONE_OF_THREE,
        payload: &[0x04, 0x02, 0x61],
        planned: Planned::Output(&[0x04, 0x02, 0x61]),
    },
    Row {
        writer: ONE_OF_THREE,
        reader: ONE_OF_THREE,
        payload: &[0x06],
        planned: Planned::Nothing,
    },
    Row {
        writer: OPTIONAL,
        reader: TURNED,
        payload: &[0x02, 0x02, 0x61],
        planned: Planned::Output(&[0x00, 0x02, 0x61]),
    },
    // (null, which the reader has not)
    Row {
        writer: OPTIONAL,
        reader: STRING,
        payload: &[0x02, 0x02, 0x61],
        planned: Planned::Output(&[0x02, 0x61]),
    },
    Row {
        writer: OPTIONAL,
        reader: STRING,
        payload: &[0x00],
        planned: Planned::Nothing,
    },
    Row {
        writer: STRING,
        reader: OPTIONAL,
        payload: &[0x02, 0x61],
        planned: Planned::Output(&[0x02, 0x02, 0x61]),
    },
    Row {
        writer: OPTIONAL_PAIRS,
        reader: EVOLVED_OPTIONAL_PAIRS,
        payload: &[
            0x06, 0x02, 0x36, 0x02, 0x61, 0x00, 0x02, 0x02, 0x02, 0x62, 0x00,
        ],
        planned: Planned::Output(&[
            0x06, 0x02, 0x02, 0x61, 0x36, 0x00, 0x02, 0x02, 0x62, 0x02, 0x00,
        ]),
    },
    // (a union in the second item that has no third branch)
    Row {
        writer: OPTIONAL_PAIRS,
        reader: EVOLVED_OPTIONAL_PAIRS,
        payload: &[0x04, 0x00, 0x04, 0x36, 0x02, 0x61, 0x00],
        planned: Planned::Nothing,
    },
    // (a union, an array of records, a record and a map, which the reader has not, around a long and a string)
    Row {
        writer: WIDE,
        reader: RECORD,
        payload: &[
            0x02, 0x02, 0x61, 0x36, 0x02, 0x08, 0x00, 0x0a, 0x02, 0x62, 0x06, 0x66, 0x6f, 0x6f,
            0x02, 0x02, 0x6b, 0x0c, 0x00,
        ],
        planned: Planned::Output(&[0x36, 0x06, 0x66, 0x6f, 0x6f]),
    },
    Row {
        writer: WIDE,
        reader: RECORD,
        payload: &[
            0x00, 0x36, 0x00, 0x0a, 0x02, 0x62, 0x06, 0x66, 0x6f, 0x6f, 0x00,
        ],
        planned: Planned::Output(&[0x36, 0x06, 0x66, 0x6f, 0x6f]),
    },
    // (a text in the skipped record that is none)
    Row {
        writer: WIDE,
        reader: RECORD,
        payload: &[
            0x00, 0x36, 0x00, 0x0a, 0x02, 0xff, 0x06, 0x66, 0x6f, 0x6f, 0x00,
        ],
        planned: Planned::Nothing,
    },
    Row {
        writer: TREE,
        reader: TREE,
        payload: &[0x02, 0x00, 0x00],
        planned: Planned::Output(&[0x02, 0x00, 0x00]),
    },
    Row {
        writer: TREE,
        reader: TREE,
        payload: &[0x02, 0x02, 0x04, 0x00, 0x00, 0x02, 0x06, 0x00, 0x00],
        planned: Planned::Output(&[0x02, 0x02, 0x04, 0x00, 0x00, 0x02, 0x06, 0x00, 0x00]),
    },
    // (a branch that the union lacks, and a tree that is cut)
    Row {
        writer: TREE,
        reader: TREE,
        payload: &[0x02, 0x04, 0x00],
        planned: Planned::Nothing,
    },
    Row {
        writer: TREE,
        reader: TREE,
        payload: &[0x02, 0x02, 0x04, 0x00],
        planned: Planned::Nothing,
    },
    Row {
        writer: WITH_TREE,
        reader: WITH_TREE,
        payload: &[0x36, 0x00, 0x01],
        planned: Planned::Output(&[0x36, 0x00, 0x01]),
    },
    Row {
        writer: LIST_OF_PAIRS,
        reader: TURNED_LIST_OF_PAIRS,
        payload: &[0x02, 0x02, 0x61, 0x02, 0x04, 0x00, 0x00],
        planned: Planned::Output(&[0x02, 0x61, 0x02, 0x02, 0x00, 0x04, 0x00]),
    },
    // (what is read last is put first)
    Row {
        writer: LIST_OF_PAIRS,
        reader: LIST_FROM_ITS_END,
        payload: &[0x02, 0x02, 0x61, 0x02, 0x04, 0x00, 0x00],
        planned: Planned::Output(&[0x02, 0x00, 0x04, 0x00, 0x02, 0x02, 0x61]),
    },
    Row {
        writer: VALUE,
        reader: VALUE,
        payload: &[
            0x08, 0x04, 0x04, 0x0a, 0x0a, 0x02, 0x02, 0x6b, 0x00, 0x00, 0x00,
        ],
        planned: Planned::Output(&[
            0x08, 0x04, 0x04, 0x0a, 0x0a, 0x02, 0x02, 0x6b, 0x00, 0x00, 0x00,
        ]),
    },
    // (a list that a reader discards)
    Row {
        writer: WITH_TREE,
        reader: WITHOUT_TREE,
        payload: &[0x36, 0x02, 0x02, 0x02, 0x04, 0x00, 0x00, 0x00, 0x01],
        planned: Planned::Output(&[0x36, 0x01]),
    },
    Row {
        writer: MUTUAL,
        reader: MUTUAL,
        payload: &[0x02, 0x02, 0x01, 0x02, 0x04, 0x00],
        planned: Planned::Output(&[0x02, 0x02, 0x01, 0x02, 0x04, 0x00]),
    },
    Row {
        writer: ENUM,
        reader: ENUM,
        payload: &[0x04],
        planned: Planned::Output(&[0x04]),
    },
    Row {
        writer: ENUM,
        reader: ENUM,
        payload: &[0x06],
        planned: Planned::Nothing,
    },
    Row {
        writer: ENUM,
        reader: RENUMBERED,
        payload: &[0x04],
        planned: Planned::Output(&[0x00]),
    },
    Row {
        writer: ENUM,
        reader: FEWER,
        payload: &[0x02],
        planned: Planned::Output(&[0x02]),
    },
    // (a symbol that the reader lacks)
    Row {
        writer: ENUM,
        reader: FEWER,
        payload: &[0x04],
        planned: Planned::Nothing,
    },
    Row {
        writer: ENUM,
        reader: LAST_TURNED,
        payload: &[0x02],
        planned: Planned::NoPlan,
    },
    Row {
        writer: MAP,
        reader: MAP,
        payload: &[0x02, 0x02, 0x61, 0x02, 0x62, 0x00],
        planned: Planned::Output(&[0x02, 0x02, 0x61, 0x02, 0x62, 0x00]),
    },
    Row {
        writer: MAP,
        reader: MAP,
        payload: &[0x02, 0x02, 0x61, 0x02, 0xff, 0x00],
        planned: Planned::Nothing,
    },
    Row {
        writer: RECORDS,
        reader: RECORDS,
        payload: &[0x00],
        planned: Planned::Output(&[0x00]),
    },
    Row {
        writer: RECORDS,
        reader: RECORDS,
        payload: &[0x04, 0x02, 0x04, 0x00],
        planned: Planned::Output(&[0x04, 0x02, 0x04, 0x00]),
    },
    Row {
        writer: PAIRS,
        reader: EVOLVED_PAIRS,
        payload: &[0x04, 0x36, 0x06, 0x66, 0x6f, 0x6f, 0x02, 0x02, 0x61, 0x00],
        planned: Planned::Output(&[
            0x04, 0x06, 0x66, 0x6f, 0x6f, 0x0e, 0x36, 0x02, 0x61, 0x0e, 0x02, 0x00,
        ]),
    },
    Row {
        writer: PAIRS,
        reader: EVOLVED_PAIRS,
        payload: &[0x00],
        planned: Planned::Output(&[0x00]),
    },
    // (two blocks, one with its size, an item that is cut, and a byte that is left)
    Row {
        writer: PAIRS,
        reader: EVOLVED_PAIRS,
        payload: &[0x02, 0x02, 0x02, 0x61, 0x02, 0x02, 0x02, 0x61, 0x00],
        planned: Planned::Output(&[0x04, 0x02, 0x61, 0x0e, 0x02, 0x02, 0x61, 0x0e, 0x02, 0x00]),
    },
    Row {
        writer: PAIRS,
        reader: EVOLVED_PAIRS,
        payload: &[0x03, 0x0c, 0x02, 0x02, 0x61, 0x04, 0x02, 0x62, 0x00],
        planned: Planned::Output(&[0x04, 0x02, 0x61, 0x0e, 0x02, 0x02, 0x62, 0x0e, 0x04, 0x00]),
    },
    Row {
        writer: PAIRS,
        reader: EVOLVED_PAIRS,
        payload: &[0x04, 0x36, 0x06, 0x66, 0x6f, 0x6f, 0x02, 0x04, 0x61],
        planned: Planned::Nothing,
    },
    Row {
        writer: PAIRS,
        reader: EVOLVED_PAIRS,
        payload: &[0x02, 0x02, 0x02, 0x61, 0x00, 0x00],
        planned: Planned::Nothing,
    },
    Row {
        writer: MAPS,
        reader: MAPS,
        payload: &[0x04, 0x02, 0x02, 0x61, 0x06, 0x00, 0x00, 0x00],
        planned: Planned::Output(&[0x04, 0x02, 0x02, 0x61, 0x06, 0x00, 0x00, 0x00]),
    },
    Row {
        writer: DEEP,
        reader: DEEP,
        payload: &[0x00],
        planned: Planned::Output(&[0x00]),
    },
    Row {
        writer: DEEP,
        reader: DEEP,
        payload: &[0x04, 0x02, 0x06, 0x00, 0x00, 0x00],
        planned: Planned::Output(&[0x04, 0x02, 0x06, 0x00, 0x00, 0x00]),
    },
    Row {
        writer: DEEP,
        reader: DEEP,
        payload: &[0x04, 0x02, 0x06, 0x00, 0x00],
        planned: Planned::Nothing,
    },
    // (blocks with sizes in blocks with sizes)
    Row {
        writer: DEEP,
        reader: DEEP,
        payload: &[0x01, 0x0a, 0x01, 0x02, 0x06, 0x00, 0x00],
        planned: Planned::Nothing,
    },
    Row {
        writer: DEEP,
        reader: DEEP,
        payload: &[0x01, 0x08, 0x01, 0x02, 0x06, 0x00, 0x00],
        planned: Planned::Output(&[0x02, 0x02, 0x06, 0x00, 0x00]),
    },
    // (an array and a map in two blocks, put the other way round, and an array in two blocks that is skipped)
    Row {
        writer: HOLDERS,
        reader: TURNED_HOLDERS,
        payload: &[
            0x02, 0x02, 0x01, 0x02, 0x04, 0x00, 0x01, 0x08, 0x02, 0x6b, 0x02, 0x61, 0x02, 0x02,
            0x6c, 0x02, 0x62, 0x00,
        ],
        planned: Planned::Output(&[
            0x04, 0x02, 0x6b, 0x02, 0x61, 0x02, 0x6c, 0x02, 0x62, 0x00, 0x04, 0x02, 0x04, 0x00,
        ]),
    },
    Row {
        writer: HOLDERS,
        reader: MAP_ALONE,
        payload: &[
            0x02, 0x02, 0x01, 0x02, 0x04, 0x00, 0x02, 0x02, 0x6b, 0x02, 0x61, 0x00,
        ],
        planned: Planned::Output(&[0x02, 0x02, 0x6b, 0x02, 0x61, 0x00]),
    },
    // (a record that mismatches, if it is there, beside longs; and one that always does)
    Row {
        writer: RECORDS_OR_LONGS,
        reader: UNMATCHED_RECORDS_OR_LONGS,
        payload: &[0x04, 0x02, 0x06, 0x02, 0x08, 0x00],
        planned: Planned::Output(&[0x04, 0x02, 0x06, 0x02, 0x08, 0x00]),
    },
    Row {
        writer: RECORDS_OR_LONGS,
        reader: UNMATCHED_RECORDS_OR_LONGS,
        payload: &[0x04, 0x02, 0x06, 0x00, 0x08, 0x02, 0x61, 0x00],
        planned: Planned::Nothing,
    },
    Row {
        writer: RECORD,
        reader: UNMATCHED_RECORD,
        payload: &[0x36, 0x06, 0x66, 0x6f, 0x6f],
        planned: Planned::NoPlan,
    },
    Row {
        writer: ROWS_OF_LONGS,
        reader: TURNED_ROWS_OF_LONGS,
        payload: &[0x04, 0x06, 0x04, 0x08, 0x0a, 0x00, 0x02, 0x00, 0x00],
        planned: Planned::Output(&[0x04, 0x04, 0x08, 0x0a, 0x00, 0x06, 0x00, 0x02, 0x00]),
    },
    Row {
        writer: LIST,
        reader: LIST,
        payload: &[0x02, 0x02, 0x04, 0x02, 0x80, 0x01, 0x00],
        planned: Planned::Output(&[0x02, 0x02, 0x04, 0x02, 0x80, 0x01, 0x00]),
    },
    Row {
        writer: LIST,
        reader: LIST,
        payload: &[0x02, 0x02, 0x04, 0x04],
        planned: Planned::Nothing,
    },
    Row {
        writer: LIST_OF_PAIRS,
        reader: LIST_OF_PAIRS,
        payload: &[0x02, 0x02, 0x61, 0x02, 0x04, 0x00, 0x00],
        planned: Planned::Output(&[0x02, 0x02, 0x61, 0x02, 0x04, 0x00, 0x00]),
    },
    Row {
        writer: RECORD,
        reader: LONGS,
        payload: &[0x00],
        planned: Planned::NoPlan,
    },
];

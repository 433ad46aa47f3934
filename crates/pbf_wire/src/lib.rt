//! The protobuf wire encoding, read and written: varints, fields, columns, running sums. It knows nothing of OpenStreetMap,
//! except for the list of reasons for which a file is refused.
//!
//! Two words name offsets in a file: `at` is that of the first byte of a message or of a field's bytes, and `place` that of the
//! first byte of a field's tag. Faults are reported at places: the `offset` of a `Field` and of a `Fault` is one.
#![tactic(auto)]

mod column;
mod column_out;
mod count;
mod delta_out;
mod fault;
mod field;
mod fields;
mod form;
mod judge;
mod kind;
pub mod laws;
mod least;
mod limits;
mod message;
mod reading;
mod runs;
mod short;
mod signed;
mod span;
mod spelled;
mod structure;
mod sum;
mod sums;
mod values;
mod varint;
mod writing;

pub use column::{Column, first_number};
pub use column_out::ColumnOut;
pub use count::{count_ends, end_mask};
pub use delta_out::DeltaOut;
pub use fault::{Fault, ReadFault, Reason};
pub use field::{Field, Payload};
pub use fields::{Fields, FoundFields};
pub use form::{judge_form, judge_leaf, judge_nested, judge_payload, judge_wire, kind_of};
pub use judge::{EachField, InField, Judge, JudgeMessage, fault_where, judge_fields, refuse};
pub use kind::Kind;
pub use least::{comes_before, lesser};
pub use limits::{OFFSET_LIMIT, RAW_LIMIT, STORED_LIMIT, SUM_LIMIT};
pub use message::Message;
pub use reading::{last_field, last_number, last_value_left, occurrence_text};
pub use short::is_short;
pub use signed::{low_i32, low_i64, low_sint32, low_u32, sign_extended, unzigzag, zigzag};
pub use span::{EMPTY_SPAN, Span};
pub use structure::{column_count, judge_missing, judge_twice};
pub use sum::Sum;
pub use sums::Sums;
pub use values::{
    judge_index, judge_index_sums, judge_low_numbers, judge_range, judge_sums, judge_sums_left,
};
pub use varint::{get_varint, put_varint, shortest_spelling, varint_len};
pub use writing::{put_bytes, put_column, put_if_some, put_int64, put_number, put_unless_empty};

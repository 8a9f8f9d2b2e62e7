//! Tests of the faults that are told beside the first one.

mod rows;

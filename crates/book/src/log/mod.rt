// The changes as they are written, and what is known of them: one row for each.
pub(crate) mod checked;
pub(crate) mod checked_log;
pub(crate) mod index;
pub(crate) mod refusal;
pub(crate) mod replay;
pub(crate) mod row;
pub(crate) mod rows;

//! Journals of threads' steps: rows that were worked out by hand, and audits that must fail.

use super::assert_equal;

mod audits;
mod scripts;

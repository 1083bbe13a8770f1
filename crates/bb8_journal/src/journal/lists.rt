//! Lists with reserved memory.
ghost use Rattle.std.specs.Prelude.{◌≡◌, ◌≤◌, [], IfOk, vec_len, vec_capacity};

use bb8_core::api::Memory;
use std::alloc::Global;

/// Returns an empty list with capacity for `count` elements.
pub(crate) fn with_room<T: Drop>(alloc: Global, count: usize) -> Result<Vec<T>, Memory>
    ensures empty { IfOk result (λ list. list.items ≡ []) }
    ensures len { IfOk result (λ list. vec_len list ≡ 0) }
    ensures room { IfOk result (λ list. count ≤ vec_capacity list) }
{
    let mut list = Vec::new(alloc);
    match list.reserve(count) {
        Ok(()) => Ok(list),
        Err(_) => Err(Memory),
    }
}

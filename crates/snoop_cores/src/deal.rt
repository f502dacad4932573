//! Rows, dealt to the cores that they are of.
ghost use Rattle.std.specs.Prelude.{◌≡◌, ◌<◌, [], All, IfOk, length};
ghost use Rattle.snoop_cores.specs.Rows.{AreDealt};

use snoop_trace::Row;
use std::alloc::{AllocError, Global};

/// Each core's rows, in order, for `cores` cores.
pub(crate) fn deal<'a>(
    alloc: Global,
    cores: usize,
    rows: &'a [Row],
) -> Result<Vec<Vec<&'a Row>>, AllocError>
    requires { All (λ row. row.core < cores) rows.now }
    ensures cores { IfOk result (λ dealt. length dealt.items ≡ cores) }
    ensures dealt { IfOk result (λ dealt. AreDealt rows.now dealt.items) }
{
    let mut dealt = empty_lists(alloc, cores)?;
    for row in rows {
        dealt[row.core as usize].push(row)?;
    }
    Ok(dealt)
}

/// So many empty lists.
fn empty_lists<'a>(alloc: Global, count: usize) -> Result<Vec<Vec<&'a Row>>, AllocError>
    ensures count { IfOk result (λ lists. length lists.items ≡ count) }
    ensures empty { IfOk result (λ lists. All (λ own. own.items ≡ []) lists.items) }
{
    let mut lists = Vec::with_capacity(alloc, count)?;
    for _ in 0..count {
        lists.push_reserved(Vec::new(alloc));
    }
    Ok(lists)
}

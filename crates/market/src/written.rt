// Text by lines: a line of names, and a line for each item.
ghost use Rattle.std.specs.Prelude.{IfOk, string_bytes};
ghost use Rattle.market.specs.Written.{LinesUnder};

use std::alloc::{AllocError, Global};
use std::fmt;
use std::fmt::Write;

// The names line, then a line for each item as Display writes it; each line ends with LF.
pub fn render_lines<T: fmt::Display>(
    names: &str,
    items: &[T],
    heap: Global,
) -> Result<String, AllocError>
    ensures { IfOk result (λ s. LinesUnder T.output names.now items.now (string_bytes s)) }
{
    // The names line takes its room at once, with its end.
    let mut out = String::with_capacity(heap, names.len() + 1)?;
    writeln!(out, "{names}")?;
    for item in items {
        writeln!(out, "{item}")?;
    }
    Ok(out)
}

#[cfg(test)]
mod tests {
    use super::*;

    #[test]
    fn two_items_below_their_names(rt: HostRuntime) -> Result<(), AllocError> {
        let text = render_lines("price", &[7u32, 12], rt.alloc())?;
        assert_eq!(rt; text.as_str(), "price\n7\n12\n");
        Ok(())
    }
}

//! Outputs that come twice.

ghost use Rattle.std.specs.Prelude.{◌≡◌, [], IfOk, map};
ghost use Rattle.std.specs.String.{string_bytes};
ghost use Rattle.osm_config.specs.Configs.{repeated_after};

use crate::config::ConfiguredExtract;
use std::alloc::{AllocError, Global};
use std::collections::BTreeSet;

/// The number of the first extract, counted from 1, whose output an earlier one has.
pub(crate) fn first_repeated(
    alloc: Global,
    extracts: &[ConfiguredExtract],
) -> Result<Option<usize>, AllocError>
    ensures { IfOk result (λ number. number
        ≡ repeated_after [] (map (λ e. string_bytes e.output) extracts.now)) }
{
    let mut seen: BTreeSet<&str> = BTreeSet::new(alloc);
    let mut count = 0usize;
    let mut rest = extracts;
    'extracts: while let Some((first, more)) = rest.split_first() {
        count += 1;
        if !seen.insert(first.output.as_str())? {
            return Ok(Some(count));
        }
        rest = more;
    }
    Ok(None)
}

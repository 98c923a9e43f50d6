//! How a space finds the call that waits with a tag: by binary search in a table sorted by tag.
ghost use Rattle.std.specs.Prelude.{◌≡◌, ◌<◌, ◌≤◌, ◌+◌, ◌*◌, ltb, if◌then◌else◌, length, IfOk};
ghost use Rattle.std.specs.Prelude.{IfErr};
ghost use Rattle.tag_space.specs.Table.{IsRising, IsAt, IsGapFor, IsNarrowed, AreSmaller};

use sync_base::Tag;

/// Where the entry with the tag is, or where it would go.
pub(crate) fn search(table: &[(Tag, u64)], tag: Tag) -> Result<usize, usize>
    requires { IsRising table.now }
    ensures found { IfOk result (IsAt table.now tag.0) }
    ensures absent { IfErr result (IsGapFor table.now tag.0) }
{
    let at = count_smaller(table, tag);
    match table.get(at) {
        Some(&(key, _)) if key.0 == tag.0 => Ok(at),
        _ => Err(at),
    }
}

// How many entries have a smaller tag. The search halves twice at a step, and adds up what it found
// in place of branching on it, since no processor can foretell such a branch.
fn count_smaller(table: &[(Tag, u64)], tag: Tag) -> usize
    requires { IsRising table.now }
    ensures { IsNarrowed table.now tag.0 result 0 }
{
    let mut smaller = 0;
    let mut left = table.len();
    'quartering: while left >= 3 {
        let quarter = (left + 1) / 4;
        smaller += count_quarters(table, tag, smaller, quarter) * quarter;
        left -= 3 * quarter;
    }
    'ending: while left > 0 {
        smaller += is_smaller(table[smaller], tag);
        left -= 1;
    }
    smaller
}

// How many of the three quarters from this place on end with a smaller tag.
fn count_quarters(table: &[(Tag, u64)], tag: Tag, from: usize, quarter: usize) -> usize
    requires rising { IsRising table.now }
    requires quarter { 0 < quarter }
    requires in_range { from + 3 * quarter ≤ length table.now }
    ensures { AreSmaller table.now tag.0 from quarter result }
{
    let first = from + quarter - 1;
    is_smaller(table[first], tag)
        + is_smaller(table[first + quarter], tag)
        + is_smaller(table[first + 2 * quarter], tag)
}

// 1 where the entry's tag is smaller, else 0.
fn is_smaller(entry: (Tag, u64), tag: Tag) -> usize
    ensures { result ≡ (if ltb entry.0.0 tag.0 then 1 else 0) }
{
    (entry.0.0 < tag.0) as usize
}

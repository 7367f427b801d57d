// What a mark means: 1 a head buffer, 2 a trunk buffer, 3 both, 0 neither. Marks are bytes, as hosts lend them.
ghost use Rattle.std.specs.Prelude.{◌≡◌};
ghost use Rattle.length_rule.specs.Marks.{mark_at, has_head, has_trunk};

// The mark of an index; 0 past the last.
pub fn mark_at(marks: &[u8], index: usize) -> u8
    ensures { result ≡ mark_at marks.now index }
{
    marks.get(index).copied().unwrap_or(0)
}

pub(crate) fn has_head(mark: u8) -> bool
    ensures { result ≡ has_head mark }
{
    matches!(mark, 1 | 3)
}

pub(crate) fn has_trunk(mark: u8) -> bool
    ensures { result ≡ has_trunk mark }
{
    matches!(mark, 2 | 3)
}

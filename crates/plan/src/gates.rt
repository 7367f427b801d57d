// The gates of an index: what each drives, and where it stands.
ghost use Rattle.std.specs.Prelude.{◌≡◌, if◌then◌else◌};
ghost use Rattle.length_rule.specs.Gates.{gates, listed};
ghost use Rattle.length_rule.specs.Marks.{has_trunk};

use crate::marks::{has_head, has_trunk};
use length_rule::{Gate, Gates};

// The gates of an index with this mark and parent, where so much hangs at it.
pub fn gates_of(mark: u8, parent: usize, index: usize, hangs: u16) -> Gates
    ensures { listed result ≡ gates mark parent index hangs (if has_trunk mark then 0 else hangs) }
{
    let drives = usize::from(hangs);
    let enters = if has_trunk(mark) { 0 } else { drives };
    let own = Gate {
        drives,
        stands: index,
    };
    let above = Gate {
        drives: 1 + enters,
        stands: parent,
    };
    Gates {
        driver: (index == 0).then_some(own),
        head: has_head(mark).then_some(above),
        trunk: has_trunk(mark).then_some(own),
    }
}
